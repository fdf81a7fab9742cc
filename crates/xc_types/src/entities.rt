// What a name may be used for, by what it is declared as.
ghost use Rattle.std.specs.Prelude.{◌≡◌, slice_get};
ghost use Rattle.std.specs.Option.{option_copied};
ghost use Rattle.xc_tree.specs.Types.Entities as entity;
ghost use Rattle.xc_tree.specs.Types.Named.{named_of, what_at};

use xc_tree::{Named, TreeDir, What};

/// The declaration of the name before which k others stand.
pub fn declaration_of(named: &Named, k: usize) -> Option<u32>
    ensures { result ≡ slice_get named.now.uses k }
{
    named.uses.get(k).copied()
}

/// What the name is declared as before which k others stand.
pub fn what_of(named: &Named, k: usize) -> Option<&What>
    ensures { option_copied result ≡ what_at (named_of named.now) (slice_get named.now.uses k) }
{
    let declared = declaration_of(named, k)?;
    let decl = named.decls.get(declared as usize)?;
    Some(&decl.what)
}

/// Whether it is a word.
pub fn is_word(what: Option<&What>) -> bool
    ensures { result ≡ entity.is_word (option_copied what.entry) }
{
    matches!(what, Some(What::Word(_) | What::Ref(_) | What::Index))
}

/// Whether it is an array.
pub fn is_array(what: Option<&What>) -> bool
    ensures { result ≡ entity.is_array (option_copied what.entry) }
{
    matches!(what, Some(What::Array(_, _) | What::ArrayParam(_, _)))
}

/// Whether it is a variable: a word or an array that is declared, or a parameter for one.
pub fn is_variable(what: Option<&What>) -> bool
    ensures { result ≡ entity.is_variable (option_copied what.entry) }
{
    matches!(
        what,
        Some(What::Word(_) | What::Array(_, _) | What::Ref(_) | What::ArrayParam(_, _))
    )
}

/// Whether it is the index of a replicated `par`.
pub fn is_index(what: Option<&What>) -> bool
    ensures { result ≡ entity.is_index (option_copied what.entry) }
{
    matches!(what, Some(What::Index))
}

/// Whether it is a word that is `unsigned`.
pub fn word_is_unsigned(what: Option<&What>) -> bool
    ensures { result ≡ entity.word_is_unsigned (option_copied what.entry) }
{
    match what {
        Some(What::Word(is_unsigned) | What::Ref(is_unsigned)) => *is_unsigned,
        _ => false,
    }
}

/// Whether it is an array of words that are `unsigned`.
pub fn elements_are_unsigned(what: Option<&What>) -> bool
    ensures { result ≡ entity.elements_are_unsigned (option_copied what.entry) }
{
    match what {
        Some(What::Array(is_unsigned, _) | What::ArrayParam(is_unsigned, _)) => *is_unsigned,
        _ => false,
    }
}

/// Whether it is a channel or an end of one.
pub fn is_channel(what: Option<&What>) -> bool
    ensures { result ≡ entity.is_channel (option_copied what.entry) }
{
    matches!(what, Some(What::Chan(_) | What::End(_)))
}

/// Whether it is a port.
pub fn is_port(what: Option<&What>) -> bool
    ensures { result ≡ entity.is_port (option_copied what.entry) }
{
    matches!(what, Some(What::Port(_) | What::PortParam(_)))
}

/// Whether it is a timer.
pub fn is_timer(what: Option<&What>) -> bool
    ensures { result ≡ entity.is_timer (option_copied what.entry) }
{
    matches!(what, Some(What::Timer))
}

/// Whether `<:` may stand behind it.
pub fn takes_output(what: Option<&What>) -> bool
    ensures { result ≡ entity.takes_output (option_copied what.entry) }
{
    match what {
        Some(What::Port(dir) | What::PortParam(dir)) => drives(*dir),
        _ => is_channel(what),
    }
}

/// Whether `:>` may stand behind it.
pub fn gives_input(what: Option<&What>) -> bool
    ensures { result ≡ entity.gives_input (option_copied what.entry) }
{
    match what {
        Some(What::Port(dir) | What::PortParam(dir)) => reads(*dir),
        Some(What::Timer) => true,
        _ => is_channel(what),
    }
}

/// Whether a port of this direction takes outputs.
fn drives(dir: TreeDir) -> bool
    ensures { result ≡ entity.drives dir }
{
    matches!(dir, TreeDir::Out | TreeDir::Both)
}

/// Whether a port of this direction gives inputs.
fn reads(dir: TreeDir) -> bool
    ensures { result ≡ entity.reads dir }
{
    matches!(dir, TreeDir::In | TreeDir::Both)
}

/// Whether it is a word, `unsigned` or not as this says.
pub fn is_word_of(is_unsigned: bool, what: Option<&What>) -> bool
    ensures { result ≡ entity.is_word_of is_unsigned (option_copied what.entry) }
{
    is_word(what) && is_unsigned == word_is_unsigned(what)
}

/// Whether it is an array of such words.
pub fn is_array_of(is_unsigned: bool, what: Option<&What>) -> bool
    ensures { result ≡ entity.is_array_of is_unsigned (option_copied what.entry) }
{
    is_array(what) && is_unsigned == elements_are_unsigned(what)
}

/// The length of an array, where it is told.
pub fn length_of(what: Option<&What>) -> Option<u32>
    ensures { result ≡ entity.length_of (option_copied what.entry) }
{
    match what {
        Some(What::Array(_, length)) => Some(*length),
        Some(What::ArrayParam(_, length)) => *length,
        _ => None,
    }
}

/// Whether an array of one length does where another is asked for.
pub fn length_does(asked: Option<u32>, given: Option<u32>) -> bool
    ensures { result ≡ entity.length_does asked given }
{
    match (asked, given) {
        (None, _) => true,
        (Some(_), None) => false,
        (Some(asked), Some(given)) => asked == given,
    }
}

/// Whether it is a channel or an end of one, streaming or not as this says.
pub fn is_channel_of(is_streaming: bool, what: Option<&What>) -> bool
    ensures { result ≡ entity.is_channel_of is_streaming (option_copied what.entry) }
{
    match what {
        Some(What::Chan(streams) | What::End(streams)) => is_streaming == *streams,
        _ => false,
    }
}

/// Whether it is a port of this direction.
pub fn is_port_of(dir: TreeDir, what: Option<&What>) -> bool
    ensures { result ≡ entity.is_port_of dir (option_copied what.entry) }
{
    match what {
        Some(What::Port(other) | What::PortParam(other)) => dir == *other,
        _ => false,
    }
}
