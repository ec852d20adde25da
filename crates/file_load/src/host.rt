// The host of a run: the natives of modules.
ghost use Rattle.std.specs.Prelude.{◌≡◌, ℕ, bytes_eq, codes};
ghost use Rattle.module_spec.specs.Answering.{modules_answer};
ghost use Rattle.star_eval.specs.Hosts.{HostGives, OwnsHosted, call_of, host_name, native_at, resume_of};
ghost use Rattle.star_eval.specs.Meets.{arena_of};
ghost use Rattle.star_steps.specs.Replies.{OwnsGot};
ghost use Rattle.star_values.specs.Objects.{seen};
ghost use Rattle.star_values.specs.Owns.{OwnsArguments};
ghost use Rattle.file_load.specs.Replying.{IsNative, NamesNative, RepliesTo};

use mod_basic::{Basic, basic_call, basic_named, try_resumed};
use mod_codec::{Codec, codec_call, codec_named};
use object_arena::{Arena, CallArgs, Ref, Reply, Shape, Value};
use star_eval::{Host, Session};
use star_fragments::copy_args;
use star_steps::refusal;
use ytt_base::fault::{Fault, FaultKind, Place, Stop};
use ytt_base::text::Text;

/// A host that answers the natives of modules, and keeps nothing.
#[derive(Drop)]
pub(crate) struct Natives;

/// What a native of a host is: one of the modules `struct`, `assert` and `template` with what it holds, one of the other modules, or none of theirs.
#[derive(Clone, Copy)]
pub(crate) enum Native {
    Basic(Basic, Option<Value>),
    Codec(Codec),
    Unknown,
}

/// The native of a name that holds this.
fn native_named(name: &Text, on: Option<Value>) -> Native
    ensures { NamesNative name.now on result }
{
    match basic_named(name.as_str()) {
        Some(basic) => Native::Basic(basic, on),
        None => match codec_named(name.as_str()) {
            Some(codec) => Native::Codec(codec),
            None => Native::Unknown,
        },
    }
}

/// What a native of a host is.
fn native_of(arena: &Arena, native: Ref) -> Native
    requires { OwnsHosted (seen arena.now) native }
    ensures { IsNative (seen arena.now) native result }
{
    match arena.shape(native) {
        Shape::Native(_, name, on) => native_named(name, on),
        _ => unreachable!(),
    }
}

fn names_try(name: &Text) -> bool
    ensures { result ≡ bytes_eq name.now (codes "assert.try_to") }
{
    name.as_str() == "assert.try_to"
}

/// Whether a native of a host is `assert.try_to`.
fn is_try(arena: &Arena, native: Ref) -> bool
    requires { OwnsHosted (seen arena.now) native }
    ensures { result ≡ bytes_eq (host_name (native_at (seen arena.now) native)) (codes "assert.try_to") }
{
    match arena.shape(native) {
        Shape::Native(_, name, _) => names_try(name),
        _ => unreachable!(),
    }
}

/// What a native of a host replies to a call.
fn reply(session: &mut Session, native: Ref, args: &CallArgs, at: Place) -> Result<Reply, Stop>
    requires native { OwnsHosted (arena_of session.old) native }
    requires args { OwnsArguments (arena_of session.old) args.now }
    ensures { RepliesTo (call_of (arena_of session.old) native args.now at) result session.new session.old }
{
    let copy = copy_args(session.arena.alloc(), args)?;
    match native_of(&session.arena, native) {
        Native::Basic(basic, on) => basic_call(
            &mut session.arena,
            &mut session.work,
            basic,
            on,
            copy,
            at,
        ),
        Native::Codec(codec) => {
            let value = codec_call(&mut session.arena, &mut session.work, codec, copy, at)?;
            Ok(Reply::Value(value))
        }
        Native::Unknown => Err(refusal(&session.arena, FaultKind::ValueKind, at)),
    }
}

/// What a native of a host replies where a call that it asked for has come to this.
fn resumed(
    session: &mut Session,
    native: Ref,
    got: Result<Value, Fault>,
    at: Place,
) -> Result<Reply, Stop>
    requires native { OwnsHosted (arena_of session.old) native }
    requires got { OwnsGot (arena_of session.old) got }
    ensures { (tag : ℕ) → RepliesTo (resume_of (arena_of session.old) native tag got at) result session.new session.old }
{
    if is_try(&session.arena, native) {
        try_resumed(&mut session.arena, got, at)
    } else {
        Err(refusal(&session.arena, FaultKind::ValueKind, at))
    }
}

impl Host for Natives {
    ghost answers = { modules_answer };

    fn call(
        &mut self,
        session: &mut Session,
        native: Ref,
        args: &CallArgs,
        at: Place,
    ) -> Result<Reply, Stop> {
        reply(session, native, args, at)
    }

    fn resume(
        &mut self,
        session: &mut Session,
        native: Ref,
        _tag: u64,
        got: Result<Value, Fault>,
        at: Place,
    ) -> Result<Reply, Stop> {
        resumed(session, native, got, at)
    }
}
