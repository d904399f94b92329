//! The words that replies begin with.
ghost use Rattle.std.specs.Prelude.{◌≡◌};
ghost use Rattle.bk_wire.specs.Reading.{Gives};
ghost use Rattle.bk_wire.specs.ReplyReading.{line_text, word_text, words_at};

use crate::fields::literal;
use crate::stops::Stop;
use bk_base::Full;

/// What kind of reply a word begins.
#[derive(Clone, Copy)]
pub enum Word {
    Value,
    Pair,
    Key,
    Line(Line),
}

/// The kinds of reply that are one line.
#[derive(Clone, Copy)]
pub enum Line {
    Absent,
    Numbered,
    End,
    Synced,
    Merged,
    Held,
    Job,
    Stat,
    Bye,
    Memory,
    Disk,
    Read,
    Damaged,
    Cut,
    Full(Full),
    Syntax,
}

/// The words of all replies.
pub const WORDS: [Word; 22] = [
    Word::Value,
    Word::Pair,
    Word::Key,
    Word::Line(Line::Absent),
    Word::Line(Line::Numbered),
    Word::Line(Line::End),
    Word::Line(Line::Synced),
    Word::Line(Line::Merged),
    Word::Line(Line::Held),
    Word::Line(Line::Job),
    Word::Line(Line::Stat),
    Word::Line(Line::Bye),
    Word::Line(Line::Memory),
    Word::Line(Line::Disk),
    Word::Line(Line::Read),
    Word::Line(Line::Damaged),
    Word::Line(Line::Cut),
    Word::Line(Line::Full(Full::Seq)),
    Word::Line(Line::Full(Full::Files)),
    Word::Line(Line::Full(Full::Folds)),
    Word::Line(Line::Full(Full::Turns)),
    Word::Line(Line::Syntax),
];

/// The bytes of a line up to its first number, or all of it.
fn line_text(line: Line) -> &'static [u8]
    ensures { result.now ≡ line_text line }
{
    match line {
        Line::Absent => b"NONE\n",
        Line::Numbered => b"OK ",
        Line::End => b"END ",
        Line::Synced => b"SYNCED ",
        Line::Merged => b"MERGED ",
        Line::Held => b"HELD ",
        Line::Job => b"JOB ",
        Line::Stat => b"STAT ",
        Line::Bye => b"BYE\n",
        Line::Memory => b"MEMORY\n",
        Line::Disk => b"DISK\n",
        Line::Read => b"READ\n",
        Line::Damaged => b"DAMAGED ",
        Line::Cut => b"CUT ",
        Line::Full(Full::Seq) => b"FULL seq\n",
        Line::Full(Full::Files) => b"FULL files\n",
        Line::Full(Full::Folds) => b"FULL folds\n",
        Line::Full(Full::Turns) => b"FULL turns\n",
        Line::Syntax => b"SYNTAX ",
    }
}

/// The bytes of a reply up to its first number, or all of it.
fn word_text(word: Word) -> &'static [u8]
    ensures { result.now ≡ word_text word }
{
    match word {
        Word::Value => b"VALUE ",
        Word::Pair => b"PAIR ",
        Word::Key => b"KEY ",
        Word::Line(line) => line_text(line),
    }
}

/// Reads the first of these words that stands there.
#[tactic(auto, unfolding(crate::specs::ReplyReading::words_at))]
pub fn first_of<'a>(words: &[Word], bytes: &'a [u8]) -> Result<(Word, &'a [u8]), Stop>
    ensures { Gives (λ x. (x.0, x.1.now)) result (words_at words.now bytes.now) }
{
    for word in words {
        match literal(word_text(*word), bytes) {
            Ok(rest) => return Ok((*word, rest)),
            Err(Stop::Short) => return Err(Stop::Short),
            Err(Stop::Bad) => {}
        }
    }
    Err(Stop::Bad)
}
