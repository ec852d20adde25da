//! Renders Carvel ytt templates:
//! `gingercrag [render] -f PATH .. [--steps N] [--depth N] [--ignore-unknown-comments]`, where each path is a file or a folder, with
//! `-f` or `--file` before it, and a value may also stand behind `=`: `--file=PATH`, `--steps=N` and `--depth=N`.
#![tactic(auto)]

use std::process::ExitCode;
use ytt_main::{Status, ytt_main};
use ytt_outside::host_files::HostFiles;
use ytt_outside::host_sink::HostSink;
use ytt_outside::host_words::read_words;
use ytt_outside::sink::Sink;

fn main(rt: HostRuntime) -> ExitCode {
    let alloc = rt.alloc();
    let mut out = HostSink::new(rt.stdout());
    let mut err = HostSink::new(rt.stderr());
    let status = match read_words(alloc, &rt) {
        Ok(words) => {
            let mut files = HostFiles::new(rt);
            ytt_main(alloc, words.as_slice(), &mut files, &mut out, &mut err)
        }
        Err(_) => {
            let _ = err.write_piece(b"error: out of memory\n");
            Status::Memory
        }
    };
    ExitCode::from(status.code())
}
