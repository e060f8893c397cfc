// Answers written as text, at the end of what stands there, which stays. There is an error only where the string had too little room for the text.
ghost use Rattle.std.specs.Prelude.{◌≡◌, ℕ, ◌≤◌, ◌++◌, List, is_ok, string_bytes, decimal, OnOk};
ghost use Rattle.query.specs.Lines.{hex};
ghost use Rattle.bench.specs.Answers.{told_answer, told_reply, told_failure};
ghost use Rattle.bench.specs.Texts.{Wrote, Appended, number_text, id_text, vector_text, row_text, clip_text, clip_pair_text, place_pair_text, each_text, option_text, written};

use crate::answer::{Failure, Reply};
use math::vector::Vector;
use query::clip_segment_segment::ClippingPoints;
use query::contact_line;
use shape::feature_id::PackedFeatureId;
use shape::polygonal_feature3d::FeatureRow;
use std::alloc::AllocError;
use std::num::f64_to_bits_with_nan;

pub fn write_answer(out: &mut String, answer: Result<Reply, Failure>) -> Result<(), AllocError>
    ensures text { OnOk result (Wrote (string_bytes out.old) (written (told_answer answer)) (string_bytes out.new)) }
    ensures appended { Appended out.old (written (told_answer answer)) (is_ok result) out.new }
{
    match answer {
        Ok(reply) => reply.write_to(out),
        Err(failure) => failure.write_to(out),
    }
}

// `Display` would not do: its contract says nothing of a write that fails.
trait Text: Copy {
    ghost text: { Self → List ℕ };

    fn write_to(&self, out: &mut String) -> Result<(), AllocError>
        ensures { Appended out.old (text self.now) (is_ok result) out.new };

    final fn then<B: Text>(self, second: B) -> Then<Self, B>
        ensures first { result.first ≡ self }
        ensures second { result.second ≡ second }
    {
        Then {
            first: self,
            second,
        }
    }
}

// A text and the one behind it.
#[derive(Clone, Copy)]
struct Then<A, B> {
    first: A,
    second: B,
}

impl<A: Text, B: Text> Text for Then<A, B> {
    ghost text = { λ t. A.text t.first ++ B.text t.second };

    fn write_to(&self, out: &mut String) -> Result<(), AllocError> {
        self.first.write_to(out)?;
        self.second.write_to(out)
    }
}

// Texts with a space before each.
#[derive(Clone, Copy)]
struct Each<'a, T> {
    items: &'a [T],
}

impl<T: Text> Text for Each<'_, T> {
    ghost text = { λ e. each_text T.text e.items.now };

    fn write_to(&self, out: &mut String) -> Result<(), AllocError> {
        for item in self.items {
            " ".then(*item).write_to(out)?;
        }
        Ok(())
    }
}

impl<T: Text> Text for Option<T> {
    ghost text = { option_text T.text };

    fn write_to(&self, out: &mut String) -> Result<(), AllocError> {
        match self {
            Some(found) => found.write_to(out),
            None => "none\n".write_to(out),
        }
    }
}

impl Text for &str {
    ghost text = { λ s. s.now };

    fn write_to(&self, out: &mut String) -> Result<(), AllocError> {
        out.push_str(self)
    }
}

impl Text for usize {
    ghost text = { decimal };

    fn write_to(&self, out: &mut String) -> Result<(), AllocError> {
        out.push_str(itoa::Buffer::new().format(*self))
    }
}

// The sixteen digits of its bits.
impl Text for f64 {
    ghost text = { number_text };

    fn write_to(&self, out: &mut String) -> Result<(), AllocError> {
        write_hex(out, 16, f64_to_bits_with_nan(*self))
    }
}

impl Text for PackedFeatureId {
    ghost text = { id_text };

    fn write_to(&self, out: &mut String) -> Result<(), AllocError> {
        write_hex(out, 8, self.0 as u64)
    }
}

impl Text for Vector {
    ghost text = { vector_text };

    fn write_to(&self, out: &mut String) -> Result<(), AllocError> {
        self.x
            .then(" ")
            .then(self.y)
            .then(" ")
            .then(self.z)
            .write_to(out)
    }
}

impl Text for FeatureRow {
    ghost text = { row_text };

    fn write_to(&self, out: &mut String) -> Result<(), AllocError> {
        self.num_vertices
            .then(Each {
                items: &self.vertices,
            })
            .then(Each { items: &self.vids })
            .then(Each { items: &self.eids })
            .then(" ")
            .then(self.fid)
            .then("\n")
            .write_to(out)
    }
}

impl Text for ClippingPoints {
    ghost text = { clip_text };

    fn write_to(&self, out: &mut String) -> Result<(), AllocError> {
        self.0
            .then(" ")
            .then(self.1)
            .then(" ")
            .then(self.2)
            .then(" ")
            .then(self.3)
            .then("\n")
            .write_to(out)
    }
}

impl Text for (ClippingPoints, ClippingPoints) {
    ghost text = { clip_pair_text };

    fn write_to(&self, out: &mut String) -> Result<(), AllocError> {
        self.0.then(self.1).write_to(out)
    }
}

impl Text for (f64, f64) {
    ghost text = { place_pair_text };

    fn write_to(&self, out: &mut String) -> Result<(), AllocError> {
        self.0.then(" ").then(self.1).then("\n").write_to(out)
    }
}

impl Text for Reply {
    ghost text = { λ r. written (told_reply r) };

    fn write_to(&self, out: &mut String) -> Result<(), AllocError> {
        match *self {
            Reply::Nothing => Ok(()),
            Reply::Done => "ok\n".write_to(out),
            Reply::Feature(row) => row.write_to(out),
            Reply::Packed(id) => id.then("\n").write_to(out),
            Reply::Clipped(points) => points.write_to(out),
            Reply::Meeting(places) => places.write_to(out),
            Reply::Root(v) => {
                if v.is_nan() {
                    "nan\n".write_to(out)
                } else {
                    v.then("\n").write_to(out)
                }
            }
        }
    }
}

impl Text for Failure {
    ghost text = { λ f. written (told_failure f) };

    fn write_to(&self, out: &mut String) -> Result<(), AllocError> {
        match *self {
            Failure::TurnedDown(number) => {
                "refused "
                    .then(usize::from(number))
                    .then("\n")
                    .write_to(out)
            }
            Failure::Unreadable(fault) => {
                "error: ".then(fault.reason()).then("\n").write_to(out)
            }
        }
    }
}

// The lowest `digits` digits of `value`, highest first.
// It counts since each digit has its own shift, from the highest on, as the definition `hex` has them; `put_group` of query's contact line, a like loop, writes into a part of a buffer and cannot fail.
#[tactic(auto, using(query::proofs::Buffers::hex_more, crate::proofs::Joins::hex_front_none, crate::proofs::Joins::length_hex_front), unfolding(query::specs::Lines::hex))]
fn write_hex(out: &mut String, digits: usize, value: u64) -> Result<(), AllocError>
    requires { digits ≤ 16 }
    ensures { Appended out.old (hex digits value) (is_ok result) out.new }
{
    for i in 0..digits {
        let digit = contact_line::hex_digit(value >> (4 * (digits - 1 - i)));
        out.push(char::from(digit))?;
    }
    Ok(())
}
