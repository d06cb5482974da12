//! The forms that open no store, as a program of their own: nothing of a file, a port or a thread
//! is compiled for it, so a quick run of its sources answers soon. Words of other forms are not
//! understood by it.
//!
//! ```text
//! an_play - find http://a.example 10 < lines   0: each line was played, and each read answered
//! an_play - import < lines                     2: words not understood
//! ```
#![tactic(auto)]

ghost use Rattle.an_base.specs.Faults.{Rises};
ghost use Rattle.an_lines.specs.Status.{ReadsLittle};
ghost use Rattle.an_play.specs.Play.{Plays};

use an_app::{Form, Status, find, form_of, misunderstood, trial};
use an_outside::{StdLink, words_of};
use an_world::Link;
use std::alloc::Global;
use std::io;
use std::process::ExitCode;

/// Does what the words behind the program's name say, over standard input and output, and ends with
/// the status of that.
fn main(rt: HostRuntime) -> ExitCode {
    let mut link = StdLink::new(rt.reader(), io::writer(&rt));
    let status = match words_of(&rt) {
        Ok(words) => play_words(rt.alloc(), words.as_slice(), &mut link),
        Err(_) => Status::Memory,
    };
    ExitCode::from(status.code())
}

/// Does what the words say, the first of which names a store that isn't opened.
fn play_words<L: Link>(alloc: Global, words: &[String], link: &mut L) -> Status {
    match form_of(alloc, words) {
        Ok(Some(form)) => play(alloc, form, link),
        Ok(None) => misunderstood(link),
        Err(_) => Status::Memory,
    }
}

/// Does what a form says that opens no store, as `run` does, and understands no other.
fn play<L: Link>(alloc: Global, form: Form, link: &mut L) -> Status
    ensures plays { Plays (Rises (L.read_faults link.old) (L.read_faults link.new))
        (Rises (L.write_faults link.old) (L.write_faults link.new))
        (L.traffic link.old) (L.traffic link.new) result form }
    ensures bounded { ReadsLittle (L.traffic link.old) (L.traffic link.new) }
{
    match form {
        Form::Find(settings) => find(alloc, link, &settings),
        Form::Trial { count, seed } => trial(alloc, link, count, seed),
        Form::Import => misunderstood(link),
        Form::Export(_) => misunderstood(link),
        Form::Harvest { settings: _, by: _ } => misunderstood(link),
        Form::Session(_) => misunderstood(link),
        Form::Serve(_) => misunderstood(link),
    }
}
