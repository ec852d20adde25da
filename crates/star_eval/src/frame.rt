// Frames, and the state of the loop.

use crate::session::Session;
use crate::source::Source;
use node_build::Builder;
use object_arena::{Boxes, CallArgs, Pairs, Ref, Value, Values};
use sqlite_items::{Boxed, Items};
use star_blocks::{Arm, Op};
use star_calls::ArgumentForm;
use star_functions::Functions;
use star_sorting::Wanted;
use star_tree::ItemKind;
use star_tree::code::{BinOp, Clause, Entry, Expr, Param, Piece, UnOp};
use ytt_base::fault::{Fault, Place};
use ytt_base::text::Text;

/// How a block ends.
#[derive(Drop)]
pub enum Flow {
    On,
    Break,
    Continue,
    Return(Value),
}

/// What members are gathered for.
#[derive(Clone, Copy)]
pub(crate) enum Gathering {
    Tuple,
    List,
}

/// What a new function is made with besides its defaults: where, the name of a `def`, and the number of its code.
#[derive(Clone, Copy)]
pub(crate) struct Making<'p> {
    pub place: Place,
    pub name: Option<&'p Text>,
    pub number: usize,
}

/// What a comprehension has gathered, with the expressions of its elements: values, or pairs of a key and a value.
#[derive(Drop)]
pub(crate) enum Bag<'p> {
    Values(&'p Expr, Values),
    Pairs(&'p Expr, &'p Expr, Boxed<Pairs>),
}

/// A part of a slice, if it stands there.
pub(crate) type Bound = Option<Boxed<Expr>>;

/// What goes on from a value to what an index or a slice gives, or to a target that is an index.
#[derive(Drop)]
pub(crate) enum InIndex<'p> {
    /// The index of the value.
    IndexOf(Place, &'p Expr),
    /// The index of this value.
    IndexAt(Place, Value),
    /// The parts of a slice of the value.
    BoundsOf(Place, &'p Bound, &'p Bound, &'p Bound),
    /// The further parts of a slice of this value.
    EndOf(Place, Value, &'p Bound, &'p Bound),
    /// The last part of a slice of this value, behind the first.
    StepOf(Place, Value, Value, &'p Bound),
    /// The slice of this value, behind its first parts.
    CutAt(Place, Value, Value, Value),
    /// The index at which the value gets this one.
    TargetOf(Place, &'p Expr, Value),
    /// This value, which gets another one at the index.
    TargetAt(Place, Value, Value),
}

/// What goes on from a value to a value.
#[derive(Drop)]
pub(crate) enum InValue<'p> {
    /// The right operand, and then the operation.
    Right(Place, BinOp, &'p Expr),
    /// The operation on this left operand.
    Operate(Place, BinOp, Value),
    /// The operation on one operand.
    OperateOn(Place, UnOp),
    /// These further members of a display, behind these values.
    Member(Gathering, &'p [Expr], Values),
    /// This value instead, where the one that comes is true.
    AndThen(&'p Expr),
    /// This value instead, where the one that comes is false.
    OrElse(&'p Expr),
    /// One of two expressions.
    Choose(&'p Expr, &'p Expr),
    /// These further targets, for these members from this one on, whatever value comes.
    Targets(Place, &'p [Expr], Source),
    /// The value of a key of a display, and its further entries, behind these pairs.
    KeyOf(Place, &'p Expr, &'p [Entry], Pairs),
    /// The pair of this key, and the further entries.
    PairOf(Place, Value, &'p [Entry], Pairs),
    Index(InIndex<'p>),
    /// The arguments of a call of the value.
    Callee(Place, &'p [Expr]),
    /// This argument of a call of a value, and the further ones, behind those that are given.
    Argument(Place, Value, ArgumentForm<'p>, &'p [Expr], CallArgs),
    /// The default of a function, and those of the further parameters, behind these.
    Default(Making<'p>, &'p [Param], Values),
    /// The first members of a comprehension of these clauses.
    First(Place, &'p Items<Clause>, Bag<'p>),
    /// The attribute of the value.
    Attribute(Place, &'p Text),
    /// The key of the next of these members, which a function gives, behind these keys; so many calls natives may ask for.
    Key(u64, Place, Wanted, Value, Values, Values),
    /// The text of the value behind this one, and then that of the further pieces.
    Shown(Place, &'p [Piece], String),
}

/// What goes on from a value to the end of a statement, or of a part of a node.
#[derive(Drop)]
pub(crate) enum InStatement<'p> {
    Discard,
    /// The target that gets the value.
    AssignTo(Place, &'p Expr),
    /// The operation on what a name had, and the name that gets its value.
    Augment(Place, BinOp, Place, &'p Text, Value),
    /// The index of a target that the operation changes.
    AugmentOf(Place, BinOp, Place, &'p Expr, &'p Expr),
    /// The operation on what this value has at the index.
    AugmentAt(Place, BinOp, Place, Value, &'p Expr),
    /// The operation on what a value had at an index, which gets its value.
    AugmentIndex(Place, BinOp, Place, Value, Value, Value),
    Return,
    /// The block where the test holds, and the further branches.
    Branch(&'p [Op], &'p [Arm]),
    /// The loop over the members of a value, with its target and its block.
    Walk(Place, &'p Expr, &'p [Op]),
    /// The block of a turn, whatever value comes.
    Enter(&'p [Op]),
    /// The node that takes the value over.
    Take,
    /// The node that gets the value as its key.
    TakeKey,
    /// The name that gets the value.
    Bind(Place, &'p Text),
    /// This argument of a note, and the further ones, behind those that are given.
    NoteArgument(&'p Text, ArgumentForm<'p>, &'p [Expr], CallArgs),
}

/// What goes on from the end of a statement, or of a turn of a loop.
#[derive(Drop)]
pub(crate) enum InBlock<'p> {
    /// The turns of a loop for the members that are left.
    Turn(Place, &'p Expr, &'p [Op], Boxed<Source>),
    /// These statements.
    Rest(&'p [Op]),
    /// The end of a walk over an object.
    WalkEnd(Ref),
}

/// What goes on from a value to what a comprehension has gathered.
#[derive(Drop)]
pub(crate) enum InElement<'p> {
    /// The members of a clause: its target, and the clauses behind it.
    Members(Place, &'p Expr, &'p [Clause], Bag<'p>),
    /// The test of a clause, and the clauses behind it.
    Test(Place, &'p [Clause], Bag<'p>),
    /// These clauses, whatever value comes.
    Enter(Place, &'p [Clause], Bag<'p>),
    /// One more value.
    Single(&'p Expr, Values),
    /// The key of one more pair.
    KeyOf(Place, &'p Expr, &'p Expr, Boxed<Pairs>),
    /// The value of one more pair.
    PairOf(Place, Value, &'p Expr, &'p Expr, Boxed<Pairs>),
}

/// What goes on from the end of a turn of a clause.
#[derive(Drop)]
pub(crate) enum InClauses<'p> {
    /// The turns of a clause for the members that are left: its target, and the clauses behind it.
    Turn(Place, &'p Expr, &'p [Clause], Source),
    /// The end of a walk over an object.
    WalkEnd(Ref),
}

/// What goes on where a call ends: the file, how many calls could stand in one another, the scope and the open nodes; and the kind
/// of the items that the function builds a fragment of.
#[derive(Drop)]
pub(crate) struct Caller {
    pub file: u32,
    pub depth: u32,
    pub scope: Boxes,
    pub nodes: Builder,
    pub fragment: Option<ItemKind>,
}

/// A native of a host that was called: how many calls it may still ask for, where it was called, and which it is.
#[derive(Clone, Copy)]
pub(crate) struct Asking {
    pub left: u64,
    pub place: Place,
    pub native: Ref,
}

/// What a host is asked.
#[derive(Drop)]
pub(crate) enum Question {
    /// The native is called with these arguments.
    Called(CallArgs),
    /// The call with this tag, which the native asked for, has come to this.
    Resumed(u64, Result<Value, Fault>),
}

/// What goes on where a call ends that a native asked for: the native, the tag of the call, and the open nodes.
#[derive(Drop)]
pub(crate) struct Pending {
    pub asking: Asking,
    pub tag: u64,
    pub nodes: Builder,
}

/// What waits for a value, for the end of a block, or for what a comprehension has gathered.
#[derive(Drop)]
pub(crate) enum Frame<'p> {
    Value(Boxed<InValue<'p>>),
    Statement(Boxed<InStatement<'p>>),
    Block(InBlock<'p>),
    Element(Boxed<InElement<'p>>),
    Clauses(Boxed<InClauses<'p>>),
    /// What is made of what a comprehension has gathered, in this scope.
    Gather(Boxes),
    Call(Boxed<Caller>),
    Native(Boxed<Pending>),
}

/// What is to be done next.
#[derive(Drop)]
pub(crate) enum Control<'p> {
    Eval(&'p Expr),
    Gave(Value),
    /// A fault in the place of a value.
    Failed(Fault),
    Run(&'p [Op]),
    Went(Flow),
    /// A fault in the place of the end of a block.
    Left(Fault),
    /// A target of a statement at a place gets a value; None is given then.
    Assign(Place, &'p Expr, Value),
    /// Clauses of a comprehension at a place, which go on from what was gathered.
    Clauses(Place, &'p [Clause], Bag<'p>),
    Bagged(Bag<'p>),
    /// A fault in the place of what a comprehension has gathered.
    Lost(Fault),
    /// The host is asked about a native.
    Ask(Asking, Boxed<Question>),
}

/// The number of the file whose code runs, and the functions of all files.
#[derive(Drop)]
pub(crate) struct Code<'p> {
    pub file: u32,
    pub functions: Functions<'p>,
}

/// All else: the code, how many calls may still stand in one another, the scope, the session, the open nodes, and what
/// waits, the innermost frame last.
#[derive(Drop)]
pub(crate) struct Machine<'p> {
    pub code: Code<'p>,
    pub depth: u32,
    pub scope: Boxes,
    pub session: Session,
    pub nodes: Builder,
    pub frames: Items<Frame<'p>>,
}
