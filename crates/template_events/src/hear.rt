// Items and comments in the order of their lines: the comment on an item's line waits while comments of earlier lines follow.
ghost use Rattle.std.specs.Prelude.{◌≡◌, [], ◌∷◌, None, Some};
ghost use Rattle.template_events.specs.Heard.{Gathers, Hears};
ghost use Rattle.template_events.specs.Levels as level;
ghost use Rattle.template_events.specs.Levels.{come, is_later};
ghost use Rattle.template_events.specs.View.{owner_of, start_of, waiting_of};
ghost use Rattle.yaml_noted.specs.View.{comment_of};

use crate::event::{Owner, Start};
use crate::gather::{Gathering, Setting, gather_comment, gather_start};
use std::mem;
use yaml_noted::RawComment;
use ytt_base::fault::Stop;

/// The comment on an item's line, which waits while comments of earlier lines follow.
#[derive(Drop)]
pub struct Waiting<'a> {
    pub owner: Owner,
    pub comment: &'a RawComment,
}

/// What was heard so far: what was gathered, and the comment behind it that waits.
#[derive(Drop)]
pub struct Hearing<'a> {
    pub gathering: Gathering<'a>,
    pub waiting: Option<Waiting<'a>>,
}

/// Whether what waits stands on a later line than this comment.
fn is_later(waiting: &Option<Waiting<'_>>, comment: &RawComment) -> bool
    ensures { result ≡ is_later (waiting_of waiting.now) (comment_of comment.now) }
{
    match waiting {
        Some(waiting) => comment.line < waiting.comment.line,
        None => false,
    }
}

/// What waits comes now.
pub fn let_come(setting: Setting, hearing: &mut Hearing<'_>) -> Result<(), Stop>
    ensures gathers { Gathers setting (come (waiting_of hearing.old.waiting)) hearing.old.gathering hearing.new.gathering result }
    ensures waiting { hearing.new.waiting ≡ None }
{
    match mem::replace(&mut hearing.waiting, None) {
        Some(Waiting { owner, comment }) => {
            gather_comment(setting, Some(owner), comment, &mut hearing.gathering)
        }
        None => Ok(()),
    }
}

/// Hears the comment on an item's line, which waits from now on.
pub fn hear_beside<'a>(
    setting: Setting,
    owner: Owner,
    comment: &'a RawComment,
    hearing: &mut Hearing<'a>,
) -> Result<(), Stop>
    ensures { Hears setting (level.comment (Some (owner_of owner)) (comment_of comment.now) ∷ []) hearing.old hearing.new result }
{
    let_come(setting, hearing)?;
    hearing.waiting = Some(Waiting { owner, comment });
    Ok(())
}

/// Hears a comment of no item: what waits on a later line goes on waiting.
pub fn hear_alone<'a>(
    setting: Setting,
    comment: &'a RawComment,
    hearing: &mut Hearing<'a>,
) -> Result<(), Stop>
    ensures { Hears setting (level.comment None (comment_of comment.now) ∷ []) hearing.old hearing.new result }
{
    if is_later(&hearing.waiting, comment) {
        return gather_comment(setting, None, comment, &mut hearing.gathering);
    }
    let_come(setting, hearing)?;
    gather_comment(setting, None, comment, &mut hearing.gathering)
}

/// Hears an item that begins: what waits comes before it.
pub fn hear_start(setting: Setting, start: Start, hearing: &mut Hearing<'_>) -> Result<(), Stop>
    ensures { Hears setting (start_of start ∷ []) hearing.old hearing.new result }
{
    let_come(setting, hearing)?;
    gather_start(setting, start, &mut hearing.gathering)
}
