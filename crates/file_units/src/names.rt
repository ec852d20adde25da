// What the ending of a file's name says.
ghost use Rattle.std.specs.Prelude.{◌≡◌};
ghost use Rattle.file_spec.specs.Names.{is_star, is_yaml_library};

/// Whether a file of this name is one of code.
pub fn is_star(name: &[u8]) -> bool
    ensures { result ≡ is_star name.now }
{
    name.ends_with(b".star".as_slice())
}

/// Whether a file of this name is YAML that other files load, and that gives no documents itself.
pub fn is_yaml_library(name: &[u8]) -> bool
    ensures { result ≡ is_yaml_library name.now }
{
    name.ends_with(b".lib.yml".as_slice()) || name.ends_with(b".lib.yaml".as_slice())
}
