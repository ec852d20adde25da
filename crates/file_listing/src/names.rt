// Which files are compiled.
ghost use Rattle.std.specs.Prelude.{◌≡◌};
ghost use Rattle.compile_spec.specs.Compiling.{is_compiled};

/// Whether a file of this name is compiled.
pub(crate) fn is_compiled(name: &[u8]) -> bool
    ensures { result ≡ is_compiled name.now }
{
    name.ends_with(b".yml".as_slice()) || name.ends_with(b".yaml".as_slice())
}
