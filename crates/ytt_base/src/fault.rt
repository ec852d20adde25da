// Faults: what is wrong, where, and what its kind tells beside.

ghost use Rattle.std.specs.Prelude.{◌≡◌, ◌≤◌, ◌<◌};
ghost use Rattle.ytt_base.specs.FaultText.{kind_name};
ghost use Rattle.ytt_base.specs.Places.{kind_place};
ghost use Rattle.ytt_base.specs.declared.fault.FaultKind.TheVariants as at;

use crate::text::{Memory, Text};

/// Where something stands: a file by its number from 1, and a line of it by its number from 1.
#[derive(Clone, Copy, PartialEq, Eq)]
pub struct Place {
    pub file: u32,
    pub line: u32,
}

/// What a fault says is wrong. A detail that isn't named here is empty.
#[derive(Clone, Copy, PartialEq, Eq)]
pub enum FaultKind {
    /// A path that a word names is not there. The detail is the path.
    FileMissing,
    /// A file is larger than a file may be. The detail is the path.
    FileTooLarge,
    /// More files, names, folders or bytes of a path than may be. The detail is the path.
    TooManyFiles,
    /// A line is not UTF-8.
    NotUtf8,
    /// A character that no text may hold.
    BadChar,
    /// A text that is no YAML of this profile.
    YamlForm,
    /// A tab where an entry is indented.
    YamlTab,
    /// Collections nest deeper than they may.
    YamlDepth,
    /// A key stands twice in a map. The detail is the key.
    KeyTwice,
    /// A number with a point or an exponent.
    FloatScalar,
    /// An integer outside 128 bits.
    IntWide,
    /// YAML that this profile leaves out.
    YamlOut,
    /// A comment that is neither code nor ignored, in a template.
    PlainComment,
    /// A note in a form that it doesn't have, or on nothing.
    NoteForm,
    /// A note of no known name. The detail is the name.
    NoteUnknown,
    /// A block that is not closed.
    BlockOpen,
    /// An item begins outside the collection of the innermost open block.
    BlockCrossed,
    /// An `end`, `elif` or `else` that closes nothing.
    BlockStray,
    /// Code that is no code of this profile.
    CodeForm,
    /// A name that is bound nowhere. The detail is the name.
    NameUnknown,
    /// A name that is read before it is bound. The detail is the name.
    NameUnset,
    /// An operation on a value that it is not for.
    ValueKind,
    /// An index outside what it indexes.
    IndexRange,
    /// A key, a name or a member that is not there. The detail says which.
    KeyMissing,
    /// An integer outside 128 bits was computed.
    IntOverflow,
    /// A division by zero.
    DivideZero,
    /// Code with a number with a point or an exponent, or with `/`.
    FloatRefused,
    /// A change of what is frozen.
    Frozen,
    /// A change of what a loop walks.
    Iterating,
    /// Arguments that fit no parameters.
    ArgBind,
    /// `fail` was called. The detail is its message.
    Failed,
    /// An assertion failed. The detail is its message.
    AssertFailed,
    /// A value, an expression or blocks nest deeper than they may.
    TooDeep,
    /// The budget of steps is spent.
    Steps,
    /// The budget of calls in progress is spent.
    Depth,
    /// A load of no file, or of no name in it. The detail is the path or the name.
    LoadMissing,
    /// A load of a file that is being loaded. The detail is the path.
    LoadCycle,
    /// A load of a name that begins with `_`. The detail is the name.
    LoadPrivate,
    /// A value that is no YAML.
    NotYaml,
    /// A fragment of items of another kind than the place holds.
    FragmentMixed,
    /// A schema in a form that it doesn't have.
    SchemaForm,
    /// A data value of another type. The detail says where, and both types.
    DataMismatch,
    /// A data value under a key that the schema lacks. The detail is its path.
    DataUnknownKey,
    /// An overlay in a form that it doesn't have.
    OverlayForm,
    /// An overlay matched another number of nodes. The detail has both numbers.
    OverlayExpects,
    /// An overlay's assertion failed. The detail is its message.
    OverlayAssert,
    /// A cut inside a character.
    CutsCharacter,
    /// A text template in a form that it doesn't have.
    TextForm,
    /// A file of documents of several roles.
    MixedFile,
    /// What a codec can't encode or decode.
    CodecForm,
    /// A form of the language that isn't built yet.
    NotBuilt,
    /// A data value breaks a rule of the schema. The detail is its path and the rule.
    ValidationFailed,
    /// An alias of no anchor. The detail is its name.
    AliasForm,
    /// Aliases copy more nodes than they may.
    AliasWide,
    /// A library that is not there. The detail is its name.
    LibraryMissing,
}

impl FaultKind {
    ghost use Rattle.std.specs.Prelude.{◌≡◌};
    ghost use Rattle.ytt_base.specs.FaultText.{kind_name};

    /// The name of the kind, as a fault's line shows it. The tables go by the order of the kinds.
    pub fn name(self) -> &'static str
        ensures { result.now ≡ kind_name self }
    {
        let place = self as u8;
        if place < FaultKind::CodeForm as u8 {
            text_kind_name(self)
        } else if place < FaultKind::LoadMissing as u8 {
            code_kind_name(self)
        } else {
            set_kind_name(self)
        }
    }
}

/// The names of the kinds that a text of YAML and its comments may have.
fn text_kind_name(kind: FaultKind) -> &'static str
    requires until { kind_place kind < kind_place at.CodeForm }
    ensures { result.now ≡ kind_name kind }
{
    match kind {
        FaultKind::FileMissing => "FileMissing",
        FaultKind::FileTooLarge => "FileTooLarge",
        FaultKind::TooManyFiles => "TooManyFiles",
        FaultKind::NotUtf8 => "NotUtf8",
        FaultKind::BadChar => "BadChar",
        FaultKind::YamlForm => "YamlForm",
        FaultKind::YamlTab => "YamlTab",
        FaultKind::YamlDepth => "YamlDepth",
        FaultKind::KeyTwice => "KeyTwice",
        FaultKind::FloatScalar => "FloatScalar",
        FaultKind::IntWide => "IntWide",
        FaultKind::YamlOut => "YamlOut",
        FaultKind::PlainComment => "PlainComment",
        FaultKind::NoteForm => "NoteForm",
        FaultKind::NoteUnknown => "NoteUnknown",
        FaultKind::BlockOpen => "BlockOpen",
        FaultKind::BlockCrossed => "BlockCrossed",
        FaultKind::BlockStray => "BlockStray",
        _ => unreachable!(),
    }
}

/// The names of the kinds that code may have.
fn code_kind_name(kind: FaultKind) -> &'static str
    requires from { kind_place at.CodeForm ≤ kind_place kind }
    requires until { kind_place kind < kind_place at.LoadMissing }
    ensures { result.now ≡ kind_name kind }
{
    match kind {
        FaultKind::CodeForm => "CodeForm",
        FaultKind::NameUnknown => "NameUnknown",
        FaultKind::NameUnset => "NameUnset",
        FaultKind::ValueKind => "ValueKind",
        FaultKind::IndexRange => "IndexRange",
        FaultKind::KeyMissing => "KeyMissing",
        FaultKind::IntOverflow => "IntOverflow",
        FaultKind::DivideZero => "DivideZero",
        FaultKind::FloatRefused => "FloatRefused",
        FaultKind::Frozen => "Frozen",
        FaultKind::Iterating => "Iterating",
        FaultKind::ArgBind => "ArgBind",
        FaultKind::Failed => "Failed",
        FaultKind::AssertFailed => "AssertFailed",
        FaultKind::TooDeep => "TooDeep",
        FaultKind::Steps => "Steps",
        FaultKind::Depth => "Depth",
        _ => unreachable!(),
    }
}

/// The names of the kinds behind those of code.
fn set_kind_name(kind: FaultKind) -> &'static str
    requires from { kind_place at.LoadMissing ≤ kind_place kind }
    ensures { result.now ≡ kind_name kind }
{
    match kind {
        FaultKind::LoadMissing => "LoadMissing",
        FaultKind::LoadCycle => "LoadCycle",
        FaultKind::LoadPrivate => "LoadPrivate",
        FaultKind::NotYaml => "NotYaml",
        FaultKind::FragmentMixed => "FragmentMixed",
        FaultKind::SchemaForm => "SchemaForm",
        FaultKind::DataMismatch => "DataMismatch",
        FaultKind::DataUnknownKey => "DataUnknownKey",
        FaultKind::OverlayForm => "OverlayForm",
        FaultKind::OverlayExpects => "OverlayExpects",
        FaultKind::OverlayAssert => "OverlayAssert",
        FaultKind::CutsCharacter => "CutsCharacter",
        FaultKind::TextForm => "TextForm",
        FaultKind::MixedFile => "MixedFile",
        FaultKind::CodecForm => "CodecForm",
        FaultKind::NotBuilt => "NotBuilt",
        FaultKind::ValidationFailed => "ValidationFailed",
        FaultKind::AliasForm => "AliasForm",
        FaultKind::AliasWide => "AliasWide",
        FaultKind::LibraryMissing => "LibraryMissing",
        _ => unreachable!(),
    }
}

/// One refusal: its kind, its place and its detail. A fault of a whole path, or of a program in no
/// proper form, has no place, and the detail is empty where the kind has none.
#[derive(Drop)]
pub struct Fault {
    pub kind: FaultKind,
    pub place: Option<Place>,
    pub detail: Text,
}

/// Why a call gave nothing: a fault of what it was given, or want of memory.
#[derive(Drop)]
pub enum Stop {
    Fault(Fault),
    Memory,
}

impl From<Memory> for Stop {
    ghost use Rattle.std.specs.Prelude.{◌≡◌};
    ghost use Rattle.ytt_base.specs.declared.fault.Stop.TheVariants as stop;

    ghost from_gives = { λ _ s. s ≡ stop.Memory };

    fn from(_: Memory) -> Self {
        Stop::Memory
    }
}
