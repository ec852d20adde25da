// Reading whole texts.
ghost use Rattle.std.specs.Prelude.{◌<◌, ◌^◌, length};
ghost use Rattle.ytt_base.specs.Outcomes.{Gives};
ghost use Rattle.ytt_base.specs.View.{trees_of};
ghost use Rattle.yaml_noted.specs.View.{documents_of};
ghost use Rattle.yaml_spec.specs.Read.{Read, read_trees};

use crate::documents::read_documents;
use std::alloc::Global;
use yaml_lines::cut_lines;
use yaml_noted::NotedDocs;
use yaml_trees::plain_trees;
use ytt_base::fault::Stop;
use ytt_base::tree::Trees;

/// The noted documents of a text, or its first refusal.
pub fn read_noted(alloc: Global, bytes: &[u8], file: u32) -> Result<NotedDocs, Stop>
    requires { length bytes.now < 2 ^ 32 }
    ensures { Gives documents_of result (Read file bytes.now) }
{
    let lines = cut_lines(alloc, bytes, file)?;
    read_documents(alloc, lines.as_slice())
}

/// The documents of a text, or its first refusal.
pub fn read_plain(alloc: Global, bytes: &[u8], file: u32) -> Result<Trees, Stop>
    requires { length bytes.now < 2 ^ 32 }
    ensures { Gives trees_of result (read_trees file bytes.now) }
{
    let documents = read_noted(alloc, bytes, file)?;
    plain_trees(alloc, &documents)
}
