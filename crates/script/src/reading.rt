// Lines read as commands.
ghost use Rattle.std.specs.Prelude.{◌≡◌, true, [], ◌∷◌, is_ok, IfOk, Ok, codes, MatchResult};
ghost use Rattle.script.specs.declared.command.Command.{Command};
ghost use Rattle.script.specs.declared.command.Command.TheVariants.{Remark};
ghost use Rattle.script.specs.Grammar.{spelling, form_items, kind_items};
ghost use Rattle.script.specs.Lines.{silent, Means, Faulty, Alike};
ghost use Rattle.script.specs.Readings.{Took, past_command, past_form, past_kind, past_line, by_name};
ghost use Rattle.script.specs.Words.{words, coming};

use crate::command::{Command, Form};
use crate::fault::Fault;
use crate::words::{Readable, Words};
use shape::feature_id::FeatureKind;

// What is read is what the line means, and nothing else is; and a line that means a command is read. It is no `TryFrom`: its four facts are cited one by one.
pub fn read_command(line: &[u8]) -> Result<Command, Fault>
    ensures silent { silent line.now ≡ true → result ≡ Ok Remark }
    ensures cases { MatchResult result (Means line.now) (Faulty line.now) }
    ensures one { IfOk result (λ c. (d : Command) → Means line.now d → Alike line.now c d) }
    ensures succeeds { (c : Command) → Means line.now c → is_ok result ≡ true }
{
    if is_silent(line) {
        return Ok(Command::Remark);
    }
    read_text(std::str::from_utf8(line)?)
}

// Nothing but spaces, or a first word that begins with `#`.
fn is_silent(line: &[u8]) -> bool
    ensures { result ≡ silent line.now }
{
    line.iter()
        .find(|byte| **byte != b' ')
        .is_none_or(|byte| *byte == b'#')
}

fn read_text(text: &str) -> Result<Command, Fault>
    ensures { Took spelling past_line (words text.now) result [] }
{
    let mut words = Words::new(text);
    let command = words.read()?;
    words.end()?;
    Ok(command)
}

impl Readable for Command {
    ghost items = { spelling };

    ghost past = { past_command };

    fn read(words: &mut Words<'_>) -> Result<Command, Fault> {
        match words.expected()? {
            "shape" => Ok(Command::Shape(words.read()?, words.read()?)),
            "feature" => read_feature(words),
            "id" => Ok(Command::Pack(words.read()?, words.read()?)),
            "clip" => Ok(Command::Clip(words.read()?, words.read()?)),
            "lines" => Ok(Command::Lines(words.read()?, words.read()?)),
            "sqrt" => Ok(Command::Sqrt(words.read()?)),
            _ => Err(Fault::UnknownCommand),
        }
    }
}

fn read_feature(words: &mut Words<'_>) -> Result<Command, Fault>
    ensures { Took spelling past_command (codes "feature" ∷ coming words.old) result (coming words.new) }
{
    let which = words.read()?;
    match words.expected()? {
        "support" => Ok(Command::Support(which, words.read()?, words.read()?)),
        "make" => Ok(Command::Make(which, words.read()?)),
        "transform" => Ok(Command::Transform(which, words.read()?)),
        "show" => Ok(Command::Show(which)),
        _ => Err(Fault::UnknownCommand),
    }
}

impl Readable for Form {
    ghost items = { form_items };

    ghost past = { by_name past_form };

    fn read(words: &mut Words<'_>) -> Result<Form, Fault> {
        match words.expected()? {
            "cylinder" => Ok(Form::Cylinder(words.read()?, words.read()?)),
            "cuboid" => Ok(Form::Cuboid(words.read()?)),
            _ => Err(Fault::UnknownCommand),
        }
    }
}

impl Readable for FeatureKind {
    ghost items = { kind_items };

    ghost past = { by_name past_kind };

    fn read(words: &mut Words<'_>) -> Result<FeatureKind, Fault> {
        match words.expected()? {
            "vertex" => Ok(FeatureKind::Vertex),
            "edge" => Ok(FeatureKind::Edge),
            "face" => Ok(FeatureKind::Face),
            _ => Err(Fault::UnknownCommand),
        }
    }
}
