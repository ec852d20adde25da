// The machine's files and streams.

use std::alloc::{AllocError, Global};
use std::fs::{self, File};
use std::io::Write;
use std::os::unix::fs::symlink;
use std::process;
use std::test::Fail;
use ytt_outside::files::{Files, FilesStop, Got, PathKind};
use ytt_outside::host_files::HostFiles;
use ytt_outside::host_sink::HostSink;
use ytt_outside::sink::Sink;

/// A new folder `/tmp/gingercrag-NUMBER-NAME`, whose path has no other folder of these tests.
fn folder(alloc: Global, rt: &HostRuntime, name: &str) -> Result<String, Fail> {
    let id = process::id(rt.process());
    let folder = format!(in alloc; "/tmp/gingercrag-{id}-{name}")?;
    fs::create_dir_all(rt, folder.as_str())?;
    Ok(folder)
}

/// What stands at a path: `file`, `folder`, `missing`, or `failed` where the call fails.
fn kind_word(files: &mut impl Files, path: &str) -> &'static str {
    match files.kind(path) {
        Ok(PathKind::File) => "file",
        Ok(PathKind::Folder) => "folder",
        Ok(PathKind::Missing) => "missing",
        Err(_) => "failed",
    }
}

/// Puts the names in the folder at a path, each behind a space, or ` failed`.
fn put_names(out: &mut String, files: &mut impl Files, path: &str) -> Result<(), AllocError> {
    let alloc = *out.allocator();
    match files.list(alloc, path) {
        Ok(names) => {
            for name in names.as_slice() {
                out.push_str(" ")?;
                out.push_str(name.as_str())?;
            }
            Ok(())
        }
        Err(_) => out.push_str(" failed"),
    }
}

/// Puts what is read within so many bytes, `too large`, `missing`, or `failed`.
fn put_bytes(
    out: &mut String,
    files: &mut impl Files,
    path: &str,
    limit: u64,
) -> Result<(), AllocError> {
    let alloc = *out.allocator();
    match files.read(alloc, path, limit) {
        Ok(Got::Bytes(bytes)) => match str::from_utf8(bytes.as_slice()) {
            Ok(text) => out.push_str(text),
            Err(_) => out.push_str("no UTF-8"),
        },
        Ok(Got::TooLarge) => out.push_str("too large"),
        Ok(Got::Missing) => out.push_str("missing"),
        Err(_) => out.push_str("failed"),
    }
}

/// What stands at a path, the names in it, and what is read within so many bytes: `file; abc`, or
/// `folder B a.yml; missing`.
fn told(
    alloc: Global,
    files: &mut impl Files,
    path: &str,
    limit: u64,
) -> Result<String, AllocError> {
    let mut out = String::from_str(alloc, kind_word(files, path))?;
    put_names(&mut out, files, path)?;
    out.push_str("; ")?;
    put_bytes(&mut out, files, path, limit)?;
    Ok(out)
}

/// Paths below the folder, a limit, and what is told of them.
const PATHS: &[(&str, u64, &str)] = &[
    ("/b.yml", 3, "file; abc"),
    ("/b.yml", 2, "file; too large"),
    // a folder that is read as a file, and a file that is a folder on the way
    ("", 3, "folder B b.yml far link loop nothing é; missing"),
    ("/b.yml/c", 3, "missing; missing"),
    ("/b.yml/", 3, "missing; missing"),
    // a link to a folder, and one to a file
    ("/far", 3, "folder c.yml; missing"),
    ("/link", 3, "file; abc"),
    // nothing can stand behind a loop of links, and nothing does behind a link to nothing
    ("/loop", 3, "missing; missing"),
    ("/loop/a.yml", 3, "missing; missing"),
    ("/nothing", 3, "missing; missing"),
];

/// A text with another behind it, as a folder with a path below it.
fn joined(alloc: Global, front: &str, back: &str) -> Result<String, AllocError> {
    let mut joined = String::from_str(alloc, front)?;
    joined.push_str(back)?;
    Ok(joined)
}

/// Files below the folder, and their texts.
const TEXTS: &[(&str, &str)] = &[("/b.yml", "abc"), ("/B", ""), ("/é/c.yml", "")];

/// Links below the folder, and to what they lead.
const LINKS: &[(&str, &str)] = &[
    ("/far", "é"),
    ("/link", "b.yml"),
    ("/loop", "loop"),
    ("/nothing", "c.yml"),
];

fn add_folder(alloc: Global, rt: &HostRuntime, folder: &str, path: &str) -> Result<(), Fail> {
    let path = joined(alloc, folder, path)?;
    fs::create_dir_all(rt, path.as_str())?;
    Ok(())
}

fn add_file(
    alloc: Global,
    rt: &HostRuntime,
    folder: &str,
    path: &str,
    text: &str,
) -> Result<(), Fail> {
    let path = joined(alloc, folder, path)?;
    fs::write(rt, path.as_str(), text)?;
    Ok(())
}

fn add_link(
    alloc: Global,
    rt: &HostRuntime,
    folder: &str,
    path: &str,
    to: &str,
) -> Result<(), Fail> {
    let path = joined(alloc, folder, path)?;
    symlink(rt, to, path.as_str())?;
    Ok(())
}

/// Makes the files, the links and a folder `é`.
fn lay_out(alloc: Global, rt: &HostRuntime, folder: &str) -> Result<(), Fail> {
    add_folder(alloc, rt, folder, "/é")?;
    for (path, text) in TEXTS {
        add_file(alloc, rt, folder, path, text)?;
    }
    for (path, to) in LINKS {
        add_link(alloc, rt, folder, path, to)?;
    }
    Ok(())
}

/// The first path of which another thing is told than is due, and what is told, or nothing.
fn differing(alloc: Global, files: &mut impl Files, folder: &str) -> Result<String, AllocError> {
    for (path, limit, want) in PATHS {
        let path = joined(alloc, folder, path)?;
        let told = told(alloc, files, path.as_str(), *limit)?;
        if told.as_str() != *want {
            return joined(alloc, path.as_str(), told.as_str());
        }
    }
    Ok(String::new(alloc))
}

#[test]
fn the_machine_has_its_files(rt: HostRuntime) -> Result<(), Fail> {
    let alloc = rt.alloc();
    let folder = folder(alloc, &rt, "files")?;
    lay_out(alloc, &rt, folder.as_str())?;
    let mut files = HostFiles::new(rt);
    let wrong = differing(alloc, &mut files, folder.as_str())?;
    fs::remove_dir_all(&rt, folder.as_str())?;
    assert_eq!(rt; wrong.as_str(), "");
    Ok(())
}

#[test]
fn a_file_without_an_end_is_too_large(rt: HostRuntime) -> Result<(), Fail> {
    let mut files = HostFiles::new(rt);
    let told = told(rt.alloc(), &mut files, "/dev/zero", 3)?;
    assert_eq!(rt; told.as_str(), "file; too large");
    Ok(())
}

/// A name of more bytes than the machine's names have.
#[test]
fn a_name_that_is_too_long_is_missing(rt: HostRuntime) -> Result<(), Fail> {
    let alloc = rt.alloc();
    let mut path = String::from_str(alloc, "/tmp/")?;
    for _ in 0..300u32 {
        path.push('p')?;
    }
    let mut files = HostFiles::new(rt);
    let told = told(alloc, &mut files, path.as_str(), 3)?;
    assert_eq!(rt; told.as_str(), "missing; missing");
    Ok(())
}

/// The machine opens its own memory as a file, and refuses to read what lies at address 0.
#[test]
fn a_read_of_the_machine_fails(rt: HostRuntime) -> Result<(), Fail> {
    let alloc = rt.alloc();
    let mut files = HostFiles::new(rt);
    assert!(rt; files.kind("/proc/self/mem").is_ok());
    let read = files.read(alloc, "/proc/self/mem", 9);
    assert!(rt; matches!(read, Err(FilesStop::Failed)));
    assert!(rt; files.kind("/proc/self/mem").is_ok());
    Ok(())
}

/// Whether three pieces, one of them empty, are taken.
fn are_taken(stream: &mut impl Write) -> bool {
    let mut sink = HostSink::new(stream);
    sink.write_piece(b"ab").is_ok()
        && sink.write_piece(b"").is_ok()
        && sink.write_piece(b"cd\n").is_ok()
}

/// Writes these pieces to a new file.
fn write_pieces(rt: &HostRuntime, path: &str) -> Result<bool, Fail> {
    let mut stream = fs::create(rt, path)?;
    let all = are_taken(&mut stream);
    stream.flush()?;
    Ok(all)
}

/// What a file in this folder then holds, or nothing where a piece isn't taken.
fn written(alloc: Global, rt: &HostRuntime, folder: &str) -> Result<String, Fail> {
    let path = joined(alloc, folder, "/out")?;
    if !write_pieces(rt, path.as_str())? {
        return Ok(String::new(alloc));
    }
    Ok(fs::read_to_string(rt, path.as_str())?)
}

#[test]
fn a_file_of_the_machine_is_written(rt: HostRuntime) -> Result<(), Fail> {
    let alloc = rt.alloc();
    let folder = folder(alloc, &rt, "sink")?;
    let text = written(alloc, &rt, folder.as_str())?;
    fs::remove_dir_all(&rt, folder.as_str())?;
    assert_eq!(rt; text.as_str(), "abcd\n");
    Ok(())
}

/// The machine's full device takes nothing; a file that is open to be read takes nothing either.
#[test]
fn a_write_of_the_machine_fails(rt: HostRuntime) -> Result<(), Fail> {
    let mut full = File::options().write(true).open(&rt, "/dev/full")?;
    let mut sink = HostSink::new(&mut full);
    assert!(rt; sink.write_piece(b"a").is_err() && sink.write_piece(b"").is_ok());
    let mut read = File::open(&rt, "/dev/null")?;
    assert!(rt; HostSink::new(&mut read).write_piece(b"a").is_err());
    Ok(())
}
