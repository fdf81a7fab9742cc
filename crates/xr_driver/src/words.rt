//! What the words of the command line mean.

ghost use Rattle.std.specs.Prelude.{◌≡◌, ◌++◌, [], ◌∷◌, None, Some, length, map, MatchOption, string_bytes};
ghost use Rattle.xr_driver.specs.Command as spec;
ghost use Rattle.xr_driver.specs.Command.{file_of, is_operand, is_ticks, is_workers, mean_workers, means, other_of, route_file_of, stim_of};
ghost use Rattle.xr_driver.specs.Decision.{command_of, names_of, told_with};

use xr_stim::number;

/// How many ticks a run has where the words don't say it.
const DEFAULT_TICKS: u32 = 100_000;

/// The most ticks that a run has.
const MOST_TICKS: u32 = 200_000;

/// How many workers a run has where the words don't say it.
const DEFAULT_WORKERS: u32 = 1;

/// The most workers that a run has.
const MOST_WORKERS: u32 = 16;

/// The most digits that a number has.
const MOST_DIGITS: usize = 6;

/// What the words of the command line ask for.
#[derive(Clone, Copy)]
pub enum Command<'w> {
    /// Compile a file, and run it for so many ticks by so many workers, under the stimulus of another file where one is named.
    Run {
        file: &'w str,
        stim: Option<&'w str>,
        ticks: u32,
        workers: u32,
    },
    /// Compile a file, and write its listing.
    Asm(&'w str),
    /// Say whether a file is accepted.
    Check(&'w str),
    /// Compile a file, and write its listing and the bounds of the routes that another file asks for.
    Time {
        file: &'w str,
        routes: &'w str,
    },
}

impl<'w> Command<'w> {
    /// The file with the text that the command is about.
    pub fn file(self) -> &'w str
        ensures { result.now ≡ file_of (command_of self.entry) }
    {
        match self {
            Command::Run { file, .. } => file,
            Command::Asm(file) => file,
            Command::Check(file) => file,
            Command::Time { file, .. } => file,
        }
    }

    /// The file with the stimulus, where the command names one.
    pub fn stim(self) -> Option<&'w str>
        ensures { MatchOption result (stim_of (command_of self.entry) ≡ None)
            (λ name. stim_of (command_of self.entry) ≡ Some name.now) }
    {
        match self {
            Command::Run { stim, .. } => stim,
            Command::Asm(_) => None,
            Command::Check(_) => None,
            Command::Time { .. } => None,
        }
    }

    /// The file with the routes, where the command names one.
    pub fn routes(self) -> Option<&'w str>
        ensures { MatchOption result (route_file_of (command_of self.entry) ≡ None)
            (λ name. route_file_of (command_of self.entry) ≡ Some name.now) }
    {
        match self {
            Command::Run { .. } => None,
            Command::Asm(_) => None,
            Command::Check(_) => None,
            Command::Time { routes, .. } => Some(routes),
        }
    }
}

/// What the options among the words behind `run` tell.
#[derive(Clone, Copy)]
pub struct Told {
    pub ticks: Option<u32>,
    pub workers: Option<u32>,
}

/// The operands among the words behind `run`.
#[derive(Clone, Copy)]
pub enum Operands<'w> {
    Nothing,
    File(&'w str),
    FileAndStim(&'w str, &'w str),
}

/// Whether a word is neither empty nor an option, which begins with two dashes.
fn names_file(word: &[u8]) -> bool
    ensures { result ≡ is_operand word.now }
{
    match word {
        [] => false,
        [b'-', b'-', ..] => false,
        _ => true,
    }
}

/// Whether a word stands in front of the number of ticks.
fn announces_ticks(word: &str) -> bool
    ensures { result ≡ is_ticks word.now }
{
    word == "--ticks"
}

/// Whether a word stands in front of the number of workers.
fn announces_workers(word: &str) -> bool
    ensures { result ≡ is_workers word.now }
{
    word == "--workers"
}

/// The number that a word is: one to six decimal digits, and 1 to the most.
fn number_within(most: u32, word: &[u8]) -> Option<u32>
    ensures { result ≡ spec.number_within most word.now }
{
    if word.len() > MOST_DIGITS {
        return None;
    }
    let n = number(word)?;
    if n == 0 || n > most as u64 {
        return None;
    }
    Some(n as u32)
}

/// The command that the words mean, if they mean one. None of it is a word that is empty, or one that begins with two dashes but
/// `--ticks` and `--workers`, which may each stand once behind `run`, with its number behind it.
pub fn meaning(words: &[String]) -> Option<Command<'_>>
    ensures { MatchOption result (means (map string_bytes words.now) ≡ None)
        (λ command. means (map string_bytes words.now) ≡ Some (command_of command)) }
{
    let [word, behind @ ..] = words else {
        return None;
    };
    if word.as_str() == "run" {
        return run_of(behind);
    }
    match behind {
        [file] => on_file(word.as_str(), file.as_str()),
        [file, second] => on_files(word.as_str(), file.as_str(), second.as_str()),
        [] => None,
        [_, _, _, ..] => None,
    }
}

/// Whether the words mean a run by two workers or more. Then `xcsim` starts threads and waits for them, and else `still` does the same.
pub fn waits(words: &[String]) -> bool
    ensures { result ≡ mean_workers (map string_bytes words.now) }
{
    match meaning(words) {
        Some(Command::Run { workers, .. }) => workers >= 2,
        _ => false,
    }
}

/// The command that another word and a file mean, if they mean one.
fn on_file<'w>(word: &str, file: &'w str) -> Option<Command<'w>>
    ensures { MatchOption result (other_of word.now (file.now ∷ []) ≡ None)
        (λ command. other_of word.now (file.now ∷ []) ≡ Some (command_of command)) }
{
    if !names_file(file.as_bytes()) {
        return None;
    }
    if word == "asm" {
        return Some(Command::Asm(file));
    }
    if word == "check" {
        return Some(Command::Check(file));
    }
    None
}

/// The command that another word and two files mean, if they mean one.
fn on_files<'w>(word: &str, file: &'w str, second: &'w str) -> Option<Command<'w>>
    ensures { MatchOption result (other_of word.now (file.now ∷ second.now ∷ []) ≡ None)
        (λ command. other_of word.now (file.now ∷ second.now ∷ []) ≡ Some (command_of command)) }
{
    if names_file(file.as_bytes()) && names_file(second.as_bytes()) && word == "time" {
        return Some(Command::Time {
            file,
            routes: second,
        });
    }
    None
}

/// The run that the words behind `run` ask for, if they ask for one: one operand or two, and `--ticks` and `--workers` with their
/// numbers, each at most once, anywhere among them.
fn run_of(words: &[String]) -> Option<Command<'_>>
    ensures { MatchOption result (spec.run_of (map string_bytes words.now) ≡ None)
        (λ command. spec.run_of (map string_bytes words.now) ≡ Some (command_of command)) }
{
    let mut operands = Operands::Nothing;
    let mut told = Told {
        ticks: None,
        workers: None,
    };
    let mut rest = words;
    'words: while let [word, behind @ ..] = rest {
        if names_file(word.as_bytes()) {
            operands = with_operand(operands, word.as_str())?;
            rest = behind;
        } else {
            let [number, behind @ ..] = behind else {
                return None;
            };
            told = told_also(word.as_str(), number.as_bytes(), told)?;
            rest = behind;
        }
    }
    let ticks = told.ticks.unwrap_or(DEFAULT_TICKS);
    let workers = told.workers.unwrap_or(DEFAULT_WORKERS);
    run_on(operands, ticks, workers)
}

/// What options tell, with one more of them and its number, if it is one that isn't told yet.
fn told_also(word: &str, number: &[u8], told: Told) -> Option<Told>
    ensures { result ≡ told_with word.now number.now told }
{
    if announces_ticks(word) {
        let ticks = number_within(MOST_TICKS, number)?;
        if told.ticks.is_some() {
            return None;
        }
        return Some(Told {
            ticks: Some(ticks),
            workers: told.workers,
        });
    }
    if !announces_workers(word) || told.workers.is_some() {
        return None;
    }
    let workers = number_within(MOST_WORKERS, number)?;
    Some(Told {
        ticks: told.ticks,
        workers: Some(workers),
    })
}

/// These operands and one more. A run has two at most.
fn with_operand<'w>(before: Operands<'w>, word: &'w str) -> Option<Operands<'w>>
    ensures { MatchOption result (length (names_of before.entry) ≡ 2)
        (λ after. names_of after ≡ names_of before.entry ++ word.now ∷ []) }
{
    match before {
        Operands::Nothing => Some(Operands::File(word)),
        Operands::File(file) => Some(Operands::FileAndStim(file, word)),
        Operands::FileAndStim(_, _) => None,
    }
}

/// The run of these operands for so many ticks and by so many workers, if there is an operand.
fn run_on(operands: Operands<'_>, ticks: u32, workers: u32) -> Option<Command<'_>>
    ensures { MatchOption result (spec.run_on (names_of operands.entry) ticks workers ≡ None)
        (λ command. spec.run_on (names_of operands.entry) ticks workers
        ≡ Some (command_of command)) }
{
    match operands {
        Operands::Nothing => None,
        Operands::File(file) => Some(Command::Run {
            file,
            stim: None,
            ticks,
            workers,
        }),
        Operands::FileAndStim(file, stim) => Some(Command::Run {
            file,
            stim: Some(stim),
            ticks,
            workers,
        }),
    }
}
