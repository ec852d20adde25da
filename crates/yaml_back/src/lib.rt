//! What is written reads back: the contracts of functions that do nothing.
#![tactic(auto)]

ghost use Rattle.std.specs.Prelude.{◌≡◌, ℕ, false, List, Ok};
ghost use Rattle.ytt_base.specs.Trees.{AreTrees, Trees, Writable};
ghost use Rattle.yaml_spec.specs.Noted.{Documents, has_code};
ghost use Rattle.yaml_spec.specs.Read.{Read, Reads, plain_trees};
ghost use Rattle.yaml_spec.specs.ReadsBack.{ReadsAlone};
ghost use Rattle.yaml_spec.specs.Text.{Text};

/// The text of documents that have one reads back as those documents, and as no others.
pub fn reads_back()
    ensures { (documents : Trees) → AreTrees documents → Writable documents → ReadsAlone (Text documents) documents }
{}

/// No comment of the printed text of documents that have one is code, whichever file it is read as: it is a plain file, and
/// its reading as such gives the documents again.
pub fn printed_is_plain()
    ensures no_code { (documents : Trees) → AreTrees documents → Writable documents →
        (file : ℕ) (noted : Documents) → Read file (Text documents) ≡ Ok noted → has_code noted ≡ false }
    ensures same_documents { (documents : Trees) → AreTrees documents → Writable documents →
        (file : ℕ) (noted : Documents) → Read file (Text documents) ≡ Ok noted → plain_trees noted ≡ Ok documents }
{}

/// A text reads as at most one list of documents, and two lists of documents have one text only where they are one.
pub fn reads_one()
    ensures one_list { (bytes : List ℕ) (some others : Trees) → Reads bytes some → Reads bytes others → some ≡ others }
    ensures one_text { (some others : Trees) → AreTrees some → Writable some → AreTrees others → Writable others →
        Text some ≡ Text others → some ≡ others }
{}
