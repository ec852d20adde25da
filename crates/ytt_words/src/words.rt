// The words of a command line.
ghost use Rattle.std.specs.Prelude.{◌≡◌, ◌≤◌, ◌<◌, ◌^◌, ◌+◌, ◌-◌, ◌++◌, ◌∷◌, [], Bool, IfOk, IfSome, false, IsNone, List, length, map, None, Some, true, if◌then◌else◌, string_bytes};
ghost use Rattle.std.specs.Option.{option_map};
ghost use Rattle.std.specs.Str.{all_ascii_digits};
ghost use Rattle.ytt_spec.specs.Words.{Given, added, alone, asked, asked_from, begun, command_given, command_options, compiling, is_depth, is_number, is_number_to, is_path, is_steps, may_follow, may_stand, name_in, named, number_of, rendering, value_in, values_of, verb_of};
ghost use Rattle.ytt_words.specs.Asks.{Asks, AsksFor, HaveRead, MayFollow, command_of, form_of, option_of, path_often, seen_verb, seen_words, text_in, words_behind};
ghost use Rattle.ytt_words.specs.declared.words.Verb.{Verb as VerbRead};
ghost use Rattle.ytt_words.specs.declared.words.Verb.TheVariants as verb;

use sqlite_items::Items;
use std::alloc::Global;
use ytt_base::text::{Memory, Names, Text};

/// How far a run may go.
#[derive(Clone, Copy)]
pub struct Budget {
    /// How many steps it may take.
    pub steps: u64,
    /// How many calls of functions may stand in one another.
    pub depth: u32,
}

/// What `render` is asked with.
#[derive(Drop)]
pub struct Request {
    /// The paths of the files and folders to render, in their order; there is one at least.
    pub paths: Names,
    /// How far that may go.
    pub budget: Budget,
    /// Whether comments of no known form may stand in a template.
    pub ignore_unknown: bool,
}

/// What `compile` is asked with.
#[derive(Drop)]
pub struct CompileRequest {
    /// The path of the file whose listing is wanted.
    pub path: Text,
    /// Whether comments of no known form may stand in it.
    pub ignore_unknown: bool,
}

/// What the words ask for.
#[derive(Drop)]
pub enum Command {
    Render(Request),
    Compile(CompileRequest),
}

/// A command by its word.
#[derive(Clone, Copy)]
pub enum Verb {
    Render,
    Compile,
}

/// Why the words ask for nothing.
#[derive(Clone, Copy)]
pub enum WordsStop {
    /// The number, from 1, of the first word at which no request goes on.
    Wrong(u64),
    Memory,
}

impl From<Memory> for WordsStop {
    ghost use Rattle.std.specs.Prelude.{◌≡◌};
    ghost use Rattle.ytt_words.specs.declared.words.WordsStop.TheVariants as stop;

    ghost from_gives = { λ _ s. s ≡ stop.Memory };

    fn from(_: Memory) -> Self {
        WordsStop::Memory
    }
}

/// An option of a command, by one of its names.
#[derive(Clone, Copy)]
pub enum CommandOption {
    /// `-f`. It gives a path, as `--file` does: for `render` one of them stands at least once, for `compile` exactly once.
    File,
    /// `--file`.
    LongFile,
    /// `--steps`, at most once.
    Steps,
    /// `--depth`, at most once.
    Depth,
    /// `--ignore-unknown-comments`, at most once. It takes no value.
    IgnoreUnknown,
}

/// How an option stands in the words.
#[derive(Clone, Copy)]
pub enum Form<'a> {
    Alone,
    /// With the next word as its value.
    Apart(&'a str),
    /// With its value behind `=` in the same word.
    Joined(&'a str),
}

/// The values of the options that were read.
#[derive(Drop)]
pub struct Values {
    pub paths: Names,
    pub steps: Option<u64>,
    pub depth: Option<u32>,
    pub ignore_unknown: bool,
}

/// The words of an option: how it stands in them, the number of the last one, and the words behind.
#[derive(Clone, Copy)]
pub struct OptionWords<'a> {
    pub form: Form<'a>,
    pub last: u64,
    pub behind: &'a [String],
}

/// How many steps a run may take where the words don't say.
const DEFAULT_STEPS: u64 = 5_000_000;

/// How many steps the words may ask for.
const MOST_STEPS: u64 = 20_000_000;

/// How deep calls of functions may stand in one another where the words don't say.
const DEFAULT_DEPTH: u32 = 100;

/// How deep the words may ask for.
const MOST_DEPTH: u64 = 100;

fn is_path(word: &str) -> bool
    ensures { result ≡ is_path word.now }
{
    word.len() >= 1 && word.len() <= 1024
}

fn all_digits(word: &str) -> bool
    ensures { result ≡ all_ascii_digits word.now }
{
    for byte in word.as_bytes() {
        if !byte.is_ascii_digit() {
            return false;
        }
    }
    true
}

/// Whether the word is 1 to 8 decimal digits.
fn is_number(word: &str) -> bool
    ensures { result ≡ is_number word.now }
{
    word.len() >= 1 && word.len() <= 8 && all_digits(word)
}

fn number_of(word: &str) -> u64
    requires { is_number word.now ≡ true }
    ensures { result ≡ number_of word.now }
{
    match word.parse::<u64>() {
        Ok(number) => number,
        Err(_) => unreachable!(),
    }
}

/// The number that a word gives: 1 to 8 decimal digits, from 1 to `most`.
fn read_number(word: &str, most: u64) -> Option<u64>
    ensures { result ≡ (if is_number_to most word.now then Some (number_of word.now) else None) }
{
    if !is_number(word) {
        return None;
    }
    let number = number_of(word);
    if number < 1 || number > most {
        return None;
    }
    Some(number)
}

/// The number of steps that a word gives, up to `MOST_STEPS`.
fn read_steps(word: &str) -> Option<u64>
    ensures { result ≡ (if is_steps word.now then Some (number_of word.now) else None) }
{
    read_number(word, MOST_STEPS)
}

/// The depth that a word gives, up to `MOST_DEPTH`.
fn read_depth(word: &str) -> Option<u32>
    ensures { result ≡ (if is_depth word.now then Some (number_of word.now) else None) }
{
    let depth = read_number(word, MOST_DEPTH)?;
    Some(depth as u32)
}

/// What stands before the first `=` of a word, or all of it, and what stands behind.
fn cut_word(word: &str) -> (&str, Option<&str>)
    ensures name { result.0.now ≡ name_in word.now }
    ensures value { text_in result.1 ≡ value_in word.now }
{
    match word.split_once('=') {
        Some((name, value)) => (name, Some(value)),
        None => (word, None),
    }
}

/// The option of `render` of this name.
fn render_named(name: &str) -> Option<CommandOption>
    ensures { option_map (option_of verb.Render) result ≡ named name.now (command_options rendering) }
{
    if name == "-f" {
        return Some(CommandOption::File);
    }
    if name == "--file" {
        return Some(CommandOption::LongFile);
    }
    if name == "--steps" {
        return Some(CommandOption::Steps);
    }
    if name == "--depth" {
        return Some(CommandOption::Depth);
    }
    if name == "--ignore-unknown-comments" {
        return Some(CommandOption::IgnoreUnknown);
    }
    None
}

/// The option of `compile` of this name.
fn compile_named(name: &str) -> Option<CommandOption>
    ensures { option_map (option_of verb.Compile) result ≡ named name.now (command_options compiling) }
{
    if name == "-f" {
        return Some(CommandOption::File);
    }
    if name == "--file" {
        return Some(CommandOption::LongFile);
    }
    if name == "--ignore-unknown-comments" {
        return Some(CommandOption::IgnoreUnknown);
    }
    None
}

/// The option of the command of this name.
fn named(verb: Verb, name: &str) -> Option<CommandOption>
    ensures { option_map (option_of verb) result ≡ named name.now (command_options (seen_verb verb)) }
{
    match verb {
        Verb::Render => render_named(name),
        Verb::Compile => compile_named(name),
    }
}

/// Whether a path may stand besides those that do.
fn path_may_follow(verb: Verb, paths: &Names) -> bool
    ensures { result ≡ may_follow (path_often (seen_verb verb)) paths.now }
{
    match verb {
        Verb::Render => true,
        Verb::Compile => paths.is_empty(),
    }
}

/// Whether the option may stand once more.
fn may_follow(verb: Verb, option: CommandOption, values: &Values) -> bool
    ensures { (gs : List Given) → HaveRead (seen_verb verb) gs values.now → result ≡ may_follow (option_of verb option).often (values_of (seen_verb verb) (option_of verb option).purpose gs) }
{
    match option {
        CommandOption::File | CommandOption::LongFile => path_may_follow(verb, &values.paths),
        CommandOption::Steps => values.steps.is_none(),
        CommandOption::Depth => values.depth.is_none(),
        CommandOption::IgnoreUnknown => !values.ignore_unknown,
    }
}

/// The option of this name, where it may stand behind those that were read.
fn begun(verb: Verb, name: &str, values: &Values) -> Option<CommandOption>
    ensures { (gs : List Given) → HaveRead (seen_verb verb) gs values.now → option_map (option_of verb) result ≡ begun (seen_verb verb) gs name.now }
{
    let option = named(verb, name)?;
    if may_follow(verb, option, values) {
        return Some(option);
    }
    None
}

/// Whether the option takes no value.
fn is_flag(option: CommandOption) -> bool
    ensures { (verb : VerbRead) → result ≡ may_stand (option_of verb option) alone }
{
    match option {
        CommandOption::File
        | CommandOption::LongFile
        | CommandOption::Steps
        | CommandOption::Depth => false,
        CommandOption::IgnoreUnknown => true,
    }
}

/// The words of an option whose first word has this number, with what stands in it behind `=`, or
/// `None` where the next word should be its value and there is none.
fn words_of<'a>(
    option: CommandOption,
    number: u64,
    joined: Option<&'a str>,
    more: &'a [String],
) -> Option<OptionWords<'a>>
    requires { number < 2 ^ 64 - 1 }
    ensures { (verb : VerbRead) → option_map seen_words result ≡ words_behind (option_of verb option) number (text_in joined.entry) (map string_bytes more.now) }
{
    if let Some(text) = joined {
        return Some(OptionWords {
            form: Form::Joined(text),
            last: number,
            behind: more,
        });
    }
    if is_flag(option) {
        return Some(OptionWords {
            form: Form::Alone,
            last: number,
            behind: more,
        });
    }
    let (word, behind) = more.split_first()?;
    Some(OptionWords {
        form: Form::Apart(word.as_str()),
        last: number + 1,
        behind,
    })
}

/// The values with one path more, behind the others.
fn with_path(alloc: Global, mut values: Values, path: &str) -> Result<Values, Memory>
    ensures { IfOk result (λ new. new ≡ record values { paths = values.paths ++ path.now ∷ [] }) }
{
    values.paths.push(Text::of(alloc, path)?)?;
    Ok(values)
}

/// The values with the number of steps that a text gives, if it gives one.
fn with_steps(values: Values, text: &str) -> Option<Values>
    ensures { result ≡ (if is_steps text.now then Some (record values { steps = Some (number_of text.now) }) else None) }
{
    let steps = read_steps(text)?;
    Some(Values {
        steps: Some(steps),
        ..values
    })
}

/// The values with the depth that a text gives, if it gives one.
fn with_depth(values: Values, text: &str) -> Option<Values>
    ensures { result ≡ (if is_depth text.now then Some (record values { depth = Some (number_of text.now) }) else None) }
{
    let depth = read_depth(text)?;
    Some(Values {
        depth: Some(depth),
        ..values
    })
}

/// The values with the option's own, or `None` where the option may not stand so.
fn put(
    alloc: Global,
    values: Values,
    option: CommandOption,
    form: Form<'_>,
) -> Result<Option<Values>, Memory>
    ensures refused { (verb : VerbRead) → IfOk result (λ put. IsNone put → may_stand (option_of verb option) (form_of form.entry) ≡ false) }
    ensures good { (verb : VerbRead) → IfOk result (λ put. IfSome put (λ new. may_stand (option_of verb option) (form_of form.entry) ≡ true)) }
    ensures put { (verb : VerbRead) → IfOk result (λ put. IfSome put (λ new. (gs : List Given) → HaveRead (seen_verb verb) gs values → MayFollow verb (option_of verb option) gs → HaveRead (seen_verb verb) (added gs (option_of verb option).name (form_of form.entry)) new)) }
{
    match (option, form) {
        (CommandOption::File, Form::Apart(path)) if is_path(path) => {
            Ok(Some(with_path(alloc, values, path)?))
        }
        (CommandOption::LongFile, Form::Apart(path) | Form::Joined(path)) if is_path(path) => {
            Ok(Some(with_path(alloc, values, path)?))
        }
        (CommandOption::Steps, Form::Apart(text) | Form::Joined(text)) => {
            Ok(with_steps(values, text))
        }
        (CommandOption::Depth, Form::Apart(text) | Form::Joined(text)) => {
            Ok(with_depth(values, text))
        }
        (CommandOption::IgnoreUnknown, Form::Alone) => Ok(Some(Values {
            ignore_unknown: true,
            ..values
        })),
        _ => Ok(None),
    }
}

/// What these values ask `render` for.
fn render_command(values: Values) -> Command
    ensures { (gs : List Given) → HaveRead rendering gs values → command_of result ≡ command_given rendering gs }
{
    Command::Render(Request {
        paths: values.paths,
        budget: Budget {
            steps: values.steps.unwrap_or(DEFAULT_STEPS),
            depth: values.depth.unwrap_or(DEFAULT_DEPTH),
        },
        ignore_unknown: values.ignore_unknown,
    })
}

/// What a path and a flag ask `compile` for.
fn compile_command(alloc: Global, values: &Values) -> Result<Command, Memory>
    ensures { (gs : List Given) → HaveRead compiling gs values.now → IfOk result (λ command. command_of command ≡ command_given compiling gs) }
{
    let path = match values.paths.as_slice().first() {
        Some(path) => path.copy()?,
        None => Text::of(alloc, "")?,
    };
    Ok(Command::Compile(CompileRequest {
        path,
        ignore_unknown: values.ignore_unknown,
    }))
}

/// What these values ask for.
fn command_from(alloc: Global, verb: Verb, values: Values) -> Result<Command, Memory>
    ensures { (gs : List Given) → HaveRead (seen_verb verb) gs values → IfOk result (λ command. command_of command ≡ command_given (seen_verb verb) gs) }
{
    match verb {
        Verb::Render => Ok(render_command(values)),
        Verb::Compile => compile_command(alloc, &values),
    }
}

/// What the options of a command from word number `first` on ask for, or the number of the wrong word.
fn read_options(
    alloc: Global,
    verb: Verb,
    words: &[String],
    first: u64,
) -> Result<Command, WordsStop>
    requires { first ≤ 2 }
    ensures { Asks (asked_from (seen_verb verb) first [] (map string_bytes words.now)) result }
{
    let mut values = Values {
        paths: Items::new(alloc),
        steps: None,
        depth: None,
        ignore_unknown: false,
    };
    let mut rest = words;
    let mut number = first;
    while let Some((word, more)) = rest.split_first() {
        let (name, joined) = cut_word(word.as_str());
        let Some(option) = begun(verb, name, &values) else {
            return Err(WordsStop::Wrong(number));
        };
        let Some(words) = words_of(option, number, joined, more) else {
            return Err(WordsStop::Wrong(number + 1));
        };
        let Some(new) = put(alloc, values, option, words.form)? else {
            return Err(WordsStop::Wrong(words.last));
        };
        values = new;
        rest = words.behind;
        number = words.last + 1;
    }
    if values.paths.is_empty() {
        return Err(WordsStop::Wrong(number));
    }
    Ok(command_from(alloc, verb, values)?)
}

/// The command of a word, if it is one.
fn verb_named(word: &str) -> Option<Verb>
    ensures { option_map seen_verb result ≡ verb_of word.now }
{
    match word {
        "render" => Some(Verb::Render),
        "compile" => Some(Verb::Compile),
        _ => None,
    }
}

/// What the words ask for: the command, its paths in their order, the budget and the flag.
///
/// `Wrong` has the number, from 1, of the first word at which no request goes on, and `Memory` says that there was no room, and
/// nothing of the words.
pub fn read_words(alloc: Global, words: &[String]) -> Result<Command, WordsStop>
    ensures asked { Asks (asked (map string_bytes words.now)) result }
    ensures spelled { AsksFor (map string_bytes words.now) result }
{
    match words.split_first() {
        None => Err(WordsStop::Wrong(1)),
        Some((word, more)) => match verb_named(word.as_str()) {
            Some(verb) => read_options(alloc, verb, more, 2),
            None => read_options(alloc, Verb::Render, words, 1),
        },
    }
}
