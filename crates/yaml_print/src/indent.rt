// Indents, and the spaces of one.
ghost use Rattle.std.specs.Prelude.{◌≡◌, ◌+◌, List};
ghost use Rattle.yaml_print.specs.Indent.{width};
ghost use Rattle.yaml_print.specs.Puts.{Puts};
ghost use Rattle.yaml_print.specs.declared.indent.Indent.{out-Indent};
ghost use Rattle.yaml_spec.specs.Text.{spaces};

use crate::put::Put;

/// How far lines are indented: two columns for each indent around this one, so that no number
/// bounds it.
#[derive(Clone, Copy)]
pub struct Indent<'a> {
    outer: Option<&'a Indent<'a>>,
}

impl<'a> Indent<'a> {
    pub fn none() -> Indent<'a>
        ensures { width result ≡ 0 }
    {
        Indent { outer: None }
    }

    pub fn inside(outer: &'a Indent<'a>) -> Indent<'a>
        ensures { width result ≡ width outer.now + 2 }
    {
        Indent { outer: Some(outer) }
    }

    pub fn outer(&self) -> Option<&'a Indent<'a>>
        ensures { result ≡ (out-Indent self.now).outer }
    {
        self.outer
    }
}

/// The spaces of an indent.
#[tactic(auto, using(crate::proofs::Putting::putting))]
pub fn write_indent<W: Put>(indent: &Indent<'_>, out: &mut W)
    ensures { Puts W.has out.old out.new (spaces (width indent.now)) }
{
    match indent.outer() {
        None => {}
        Some(outer) => {
            out.put("  ");
            write_indent(outer, out);
        }
    }
}
