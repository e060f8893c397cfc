// The parts of commands, each read from the words that it stands in.
ghost use Rattle.std.specs.Prelude.{◌++◌, ◌∷◌, [], List};
ghost use Rattle.std.specs.List.{flat_map};
ghost use Rattle.script.specs.Grammar.{Chosen, Number, Word, Place, id_item, optional_items, vector_items, pose_items, point2_items, row_items};
ghost use Rattle.script.specs.Readings.{past_ordinal, past_number, past_word, past_place, past_both, times, unless_ended, past_vector, past_pose, past_point2, past_row};

use crate::command::Which;
use crate::fault::Fault;
use crate::numbers;
use crate::words::{Readable, Words};
use math::pose::{Pose, Rotation};
use math::vector::Vector;
use math::vector2::Vector2;
use shape::feature_id::PackedFeatureId;
use shape::polygonal_feature3d::FeatureRow;

impl Readable for f64 {
    ghost items = { λ x. Number x ∷ [] };

    ghost past = { past_number };

    fn read(words: &mut Words<'_>) -> Result<f64, Fault> {
        numbers::read_number(words.expected()?).ok_or(Fault::NotNumber)
    }
}

impl Readable for u32 {
    ghost items = { λ n. Word n ∷ [] };

    ghost past = { past_word };

    fn read(words: &mut Words<'_>) -> Result<u32, Fault> {
        numbers::read_word(words.expected()?).ok_or(Fault::NotWord)
    }
}

impl Readable for u64 {
    ghost items = { λ n. Place n ∷ [] };

    ghost past = { past_place };

    fn read(words: &mut Words<'_>) -> Result<u64, Fault> {
        numbers::read_place(words.expected()?).ok_or(Fault::NotPlace)
    }
}

// One behind the other.
impl<A: Readable, B: Readable> Readable for (A, B) {
    ghost items = { λ s. A.items s.0 ++ B.items s.1 };

    ghost past = { past_both A.past B.past };

    fn read(words: &mut Words<'_>) -> Result<(A, B), Fault> {
        Ok((words.read()?, words.read()?))
    }
}

// No const parameter: `array::try_from_fn` does not say that each call goes on where the one before it ended.
impl<T: Readable> Readable for [T; 2] {
    ghost items = { flat_map T.items };

    ghost past = { times 2 T.past };

    fn read(words: &mut Words<'_>) -> Result<[T; 2], Fault> {
        Ok([words.read()?, words.read()?])
    }
}

impl<T: Readable> Readable for [T; 4] {
    ghost items = { flat_map T.items };

    ghost past = { times 4 T.past };

    fn read(words: &mut Words<'_>) -> Result<[T; 4], Fault> {
        Ok([words.read()?, words.read()?, words.read()?, words.read()?])
    }
}

// None where the line is at its end.
impl<T: Readable> Readable for Option<T> {
    ghost items = { optional_items T.items };

    ghost past = { unless_ended T.past };

    fn read(words: &mut Words<'_>) -> Result<Option<T>, Fault> {
        let mut ahead = *words;
        match ahead.next() {
            None => Ok(None),
            Some(_) => words.read().map(Some),
        }
    }
}

impl Readable for Which {
    ghost items = { λ k. Chosen k ∷ [] };

    ghost past = { past_ordinal };

    fn read(words: &mut Words<'_>) -> Result<Which, Fault> {
        match words.expected()? {
            "1" => Ok(Which::First),
            "2" => Ok(Which::Second),
            _ => Err(Fault::NotOneOrTwo),
        }
    }
}

impl Readable for Vector {
    ghost items = { vector_items };

    ghost past = { past_vector };

    fn read(words: &mut Words<'_>) -> Result<Vector, Fault> {
        let x = words.read()?;
        let y = words.read()?;
        let z = words.read()?;
        Ok(Vector { x, y, z })
    }
}

impl Readable for Vector2 {
    ghost items = { point2_items };

    ghost past = { past_point2 };

    fn read(words: &mut Words<'_>) -> Result<Vector2, Fault> {
        let x = words.read()?;
        let y = words.read()?;
        Ok(Vector2 { x, y })
    }
}

// Translation, then rotation: its vector part and its scalar part.
impl Readable for Pose {
    ghost items = { pose_items };

    ghost past = { past_pose };

    fn read(words: &mut Words<'_>) -> Result<Pose, Fault> {
        let translation = words.read()?;
        let b = words.read()?;
        let w = words.read()?;
        Ok(Pose {
            rotation: Rotation { b, w },
            translation,
        })
    }
}

impl Readable for PackedFeatureId {
    ghost items = { λ i. id_item i ∷ [] };

    ghost past = { past_word };

    fn read(words: &mut Words<'_>) -> Result<PackedFeatureId, Fault> {
        words.read().map(PackedFeatureId)
    }
}

impl Readable for FeatureRow {
    ghost items = { row_items };

    ghost past = { past_row };

    fn read(words: &mut Words<'_>) -> Result<FeatureRow, Fault> {
        let count: u64 = words.read()?;
        Ok(FeatureRow {
            num_vertices: count as usize,
            vertices: words.read()?,
            vids: words.read()?,
            eids: words.read()?,
            fid: words.read()?,
        })
    }
}
