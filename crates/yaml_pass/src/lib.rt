//! One pass over a document's lines, with a stack of open blocks, reads what cutting them top down reads. The pass stands in
//! `specs/Machine`; that both are one is the contract of a function that does nothing.
#![tactic(auto)]

ghost use Rattle.std.specs.Prelude.{◌≡◌, ℕ, Bool, List, []};
ghost use Rattle.yaml_pass.specs.Machine.{pass, passed_by, wanting};
ghost use Rattle.yaml_spec.specs.Lines.{Line};
ghost use Rattle.yaml_spec.specs.Noted.{Comment};
ghost use Rattle.yaml_spec.specs.Rows.{rows};

/// One pass over a document's lines, with a stack of open blocks, finds what cutting them top down finds: the content
/// and the comments behind it, or the same first fault.
pub fn passes_as_cut()
    ensures { (stop : ℕ) (is_owned : Bool) (comments : List Comment) (lines : List Line) →
        pass stop is_owned 0 0 comments [] wanting lines ≡ passed_by (rows stop is_owned 0 0 comments lines) }
{}
