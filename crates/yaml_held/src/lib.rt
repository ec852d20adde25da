//! What is read of a text is what the program holds, and can be written, and it has keys in maps alone: contracts of functions that
//! do nothing.
#![tactic(auto)]

ghost use Rattle.std.specs.Prelude.{◌≡◌, ℕ, List, Ok};
ghost use Rattle.ytt_base.specs.Trees.{AreTrees, Trees, Writable};
ghost use Rattle.yaml_held.specs.Keyed.{KeyedDocuments};
ghost use Rattle.yaml_spec.specs.Noted.{Documents};
ghost use Rattle.yaml_spec.specs.Read.{Read, read_trees};
ghost use Rattle.yaml_spec.specs.ReadsBack.{ReadsAlone};
ghost use Rattle.yaml_spec.specs.Text.{Text};

/// What is read is what the program holds, with UTF-8, 128 bits and no key twice in a map; it has a text, since none of
/// the documents is null and none nests more than 100 collections; and that text reads back as it alone.
pub fn reads_writable()
    ensures held { (file : ℕ) (bytes : List ℕ) (documents : Trees) → read_trees file bytes ≡ Ok documents → AreTrees documents }
    ensures writable { (file : ℕ) (bytes : List ℕ) (documents : Trees) → read_trees file bytes ≡ Ok documents → Writable documents }
    ensures back { (file : ℕ) (bytes : List ℕ) (documents : Trees) → read_trees file bytes ≡ Ok documents →
        ReadsAlone (Text documents) documents }
{}

/// In noted documents that were read an item has a key exactly where it stands in a map.
pub fn reads_keyed()
    ensures { (file : ℕ) (bytes : List ℕ) (documents : Documents) → Read file bytes ≡ Ok documents → KeyedDocuments documents }
{}
