//! A caller of `tool`.
use paths::StoreDir;
use policy::{Class, Rule};
use std::alloc::Global;
use std::test::Fail;
use tool::{
    CommandError, Console, Task, Unknown, answer, command, judge, ls, run, source_path, text_path,
    who,
};

/// The archive of a file whose contents are `mycontent` and a line feed.
const MY_FILE: &[u8] = b"\x0d\0\0\0\0\0\0\0nix-archive-1\0\0\0\
\x01\0\0\0\0\0\0\0(\0\0\0\0\0\0\0\
\x04\0\0\0\0\0\0\0type\0\0\0\0\
\x07\0\0\0\0\0\0\0regular\0\
\x08\0\0\0\0\0\0\0contents\
\x0a\0\0\0\0\0\0\0mycontent\n\0\0\0\0\0\0\
\x01\0\0\0\0\0\0\0)\0\0\0\0\0\0\0";

#[test]
fn parsed_words(rt: HostRuntime) -> Result<(), Fail> {
    let words = ["nixkeep", "--user", "root", "who"];
    let line = command(rt.alloc(), &words)?;
    assert!(rt; line.user == Some("root"));
    assert!(rt; line.group.is_none());
    assert!(rt; line.db.is_none());
    assert!(rt; line.config.is_none());
    assert!(rt; matches!(&line.task, Task::Who));
    Ok(())
}

#[test]
fn refused_words(rt: HostRuntime) {
    let words = ["nixkeep", "forget"];
    assert!(rt; command(rt.alloc(), &words).is_err());
}

/// Whether words that are run without an input end with this status, print these results, and say this of faults.
fn is_run(rt: &HostRuntime, words: &[&str], status: u8, printed: &[u8], complained: &[u8]) -> bool {
    let mut input = b"".as_slice();
    let (mut output, mut errors) = (Vec::new(rt.alloc()), Vec::new(rt.alloc()));
    let found = run(rt, Unknown, words, &mut input, &mut output, &mut errors);
    found == status && output.as_slice() == printed && errors.as_slice() == complained
}

#[test]
fn run_on_words(rt: HostRuntime) {
    for (words, status, printed, complained) in [
        (
            ["nixkeep", "--user", "root", "who"],
            0,
            b"class: trusted\nconnect: yes\n".as_slice(),
            b"".as_slice(),
        ),
        (["nixkeep", "--user", "ann", "list"], 0, b"", b""),
        (
            ["nixkeep", "--user", "a b", "list"],
            3,
            b"",
            b"refused: 20 bad-caller\n",
        ),
    ] {
        assert!(rt; is_run(&rt, &words, status, printed, complained));
    }
}

/// Whether the line that words are is done under default settings and without an input, and prints this at first.
fn is_answered(rt: &HostRuntime, words: &[&str], first: &[u8]) -> Result<bool, CommandError> {
    let line = command(rt.alloc(), words)?;
    let mut input = b"".as_slice();
    let (mut output, mut errors) = (Vec::new(rt.alloc()), Vec::new(rt.alloc()));
    let mut console = Console {
        input: &mut input,
        output: &mut output,
        errors: &mut errors,
    };
    let status = answer(rt, Unknown, b"", &line, &mut console);
    Ok(status == 0 && errors.is_empty() && output.starts_with(first))
}

#[test]
fn answered_lines(rt: HostRuntime) -> Result<(), Fail> {
    let words = ["nixkeep", "--user", "ann", "report"];
    assert!(rt; is_answered(&rt, &words, b"class       paths            bytes\n")?);
    Ok(())
}

/// Settings under which nobody is allowed.
const CLOSED: &[u8] = b"allowed-users = []\n";

#[test]
fn verdict_on_a_stranger(rt: HostRuntime) -> Result<(), Fail> {
    let verdict = judge(rt.alloc(), CLOSED, Some("bob"), Some("users"))?;
    assert!(rt; verdict.class == Class::Stranger);
    assert!(rt; verdict.denial == Some(Rule::Connect));
    Ok(())
}

/// Whether `who` ends with this status and prints this about a user.
fn is_printed_by_who(alloc: Global, user: Option<&str>, status: u8, printed: &[u8]) -> bool {
    let mut output = Vec::new(alloc);
    let found = who(alloc, CLOSED, user, None, &mut output);
    found == status && output.as_slice() == printed
}

#[test]
fn who_is_who(rt: HostRuntime) {
    for (user, status, printed) in [
        (
            Some("root"),
            0,
            b"class: trusted\nconnect: yes\n".as_slice(),
        ),
        (Some("bob"), 4, b"class: stranger\ndenied: connect\n"),
        (None, 3, b"refused: 20 bad-caller\n"),
    ] {
        assert!(rt; is_printed_by_who(rt.alloc(), user, status, printed));
    }
}

/// Whether a text named `myfile` has this path.
fn is_path_of_text(alloc: Global, dir: &StoreDir, contents: &[u8], line: &[u8]) -> bool {
    let (mut output, mut errors) = (Vec::new(alloc), Vec::new(alloc));
    let mut input = contents;
    let none = [""; 0];
    let status = text_path(
        alloc,
        dir,
        "myfile",
        &none,
        &mut input,
        &mut output,
        &mut errors,
    );
    status == 0 && errors.is_empty() && output.as_slice() == line
}

/// Whether a source named `myfile` has this path.
fn is_path_of_source(alloc: Global, dir: &StoreDir, archive: &[u8], line: &[u8]) -> bool {
    let (mut output, mut errors) = (Vec::new(alloc), Vec::new(alloc));
    let mut input = archive;
    let none = [""; 0];
    let status = source_path(
        alloc,
        dir,
        "myfile",
        &none,
        &mut input,
        &mut output,
        &mut errors,
    );
    status == 0 && errors.is_empty() && output.as_slice() == line
}

/// Whether an archive has this listing.
fn is_listing(alloc: Global, archive: &[u8], lines: &[u8]) -> bool {
    let (mut output, mut errors) = (Vec::new(alloc), Vec::new(alloc));
    let mut input = archive;
    let status = ls(alloc, &mut input, &mut output, &mut errors);
    status == 0 && errors.is_empty() && output.as_slice() == lines
}

const TEXT_LINE: &[u8] = b"/nix/store/a0d1zlpv81nsfbam8ay3i7snrc0sgsvr-myfile\n";

const SOURCE_LINE: &[u8] = b"/nix/store/xv2iccirbrvklck36f1g7vldn5v58vck-myfile\n";

#[test]
fn paths_of_inputs(rt: HostRuntime) -> Result<(), Fail> {
    let alloc = rt.alloc();
    let dir = StoreDir::parse(alloc, "/nix/store")?;
    assert!(rt; is_path_of_text(alloc, &dir, b"mycontent\n", TEXT_LINE));
    assert!(rt; is_path_of_source(alloc, &dir, MY_FILE, SOURCE_LINE));
    assert!(rt; is_listing(alloc, MY_FILE, b"r 10 .\n"));
    Ok(())
}
