//! What the types of an image's numbers keep: each of them is a word.

ghost use Rattle.std.specs.Prelude.{◌≡◌, ◌<◌, ◌^◌};
ghost use Rattle.xs_instr.specs.Words.{AreWordCores, AreWordInstrs, AreWordPlaces, HasWords, IsWordInstr};

use xs_instr::{CoreImage, Image, Instr};
use xw_words::Pos;

/// Each number of an image's code is a word, as its type says. It goes over the code, and its clause is all that it gives.
pub fn keep_words(image: &Image)
    ensures { HasWords image.now }
{
    keep_words_of_cores(image.cores.as_slice());
}

fn keep_words_of_cores(cores: &[CoreImage])
    ensures { AreWordCores cores.now }
{
    let mut rest = cores;
    'each: while let [first, behind @ ..] = rest {
        keep_words_of_code(first.code.instrs.as_slice());
        keep_words_of_places(first.code.at.as_slice());
        rest = behind;
    }
}

fn keep_words_of_code(instrs: &[Instr])
    ensures { AreWordInstrs instrs.now }
{
    let mut rest = instrs;
    'each: while let [first, behind @ ..] = rest {
        word_instr(*first);
        rest = behind;
    }
}

fn keep_words_of_places(places: &[Pos])
    ensures { AreWordPlaces places.now }
{
    let mut rest = places;
    'each: while let [first, behind @ ..] = rest {
        word_place(*first);
        rest = behind;
    }
}

/// An instruction, whose number, where it has one, is a word.
fn word_instr(instr: Instr) -> Instr
    ensures word { IsWordInstr result }
    ensures same { result ≡ instr }
{
    instr
}

/// A place, whose line and column are words.
fn word_place(place: Pos) -> Pos
    ensures line { result.line < 2 ^ 32 }
    ensures column { result.col < 2 ^ 32 }
    ensures same { result ≡ place }
{
    place
}
