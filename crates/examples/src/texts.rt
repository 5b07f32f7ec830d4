//! A caller of `report`.
use crate::fixtures::{ADDRESS, MY_HASH, SOURCE, TEXT, path, store_dir};
use paths::{Ca, StoreDir};
use policy::Rule;
use report::{
    Failure, Refusal, denial_line, failure_line, failure_of, narinfo, path_line, paths_text, print,
    print_failure, push_denial, refusal_line, refusal_text, reply_pieces, reply_text, roots_text,
    usage_text,
};
use std::alloc::{AllocError, Global};
use std::test::Fail;
use store::{Answer, Failed, Info, Reply, Usage};
use tables::Pieces;

/// The record of the source of one file.
const RECORD: &str = "StorePath: /nix/store/xv2iccirbrvklck36f1g7vldn5v58vck-myfile
URL: nar/xv2iccirbrvklck36f1g7vldn5v58vck-myfile
Compression: none
FileHash: sha256:1qwy7y49hyqd7kdpkyjfclz5fkfqalqapzc4v18lbibkx1yzdzib
FileSize: 128
NarHash: sha256:1qwy7y49hyqd7kdpkyjfclz5fkfqalqapzc4v18lbibkx1yzdzib
NarSize: 128
References: 
CA: fixed:r:sha256:1qwy7y49hyqd7kdpkyjfclz5fkfqalqapzc4v18lbibkx1yzdzib
";

fn source_info(alloc: Global) -> Result<Info, Fail> {
    Ok(Info {
        path: path(alloc, SOURCE)?,
        hash: MY_HASH,
        size: 128,
        references: Vec::new(alloc),
        deriver: None,
        ca: Some(Ca::parse(alloc, ADDRESS)?),
    })
}

#[test]
fn text_of_a_record(rt: HostRuntime) -> Result<(), Fail> {
    let alloc = rt.alloc();
    let dir = store_dir(alloc)?;
    let text = narinfo(alloc, &dir, &source_info(alloc)?)?;
    assert!(rt; text.as_str() == RECORD);
    Ok(())
}

/// The line of one path, which is the text of one path as well.
fn line_of(alloc: Global, dir: &StoreDir, base: &str) -> Result<String, Fail> {
    let path = path(alloc, base)?;
    let line = path_line(alloc, dir, &path)?;
    if paths_text(alloc, dir, &[path])? == line {
        Ok(line)
    } else {
        Err(Fail::new("another line"))
    }
}

/// The line of one root.
fn root_line(alloc: Global, dir: &StoreDir, label: &str, base: &str) -> Result<String, Fail> {
    let label = String::from_str(alloc, label)?;
    let target = path(alloc, base)?;
    Ok(roots_text(alloc, dir, &[(label, target)])?)
}

#[test]
fn texts_of_lists(rt: HostRuntime) -> Result<(), Fail> {
    let alloc = rt.alloc();
    let dir = store_dir(alloc)?;
    let line = line_of(alloc, &dir, TEXT)?;
    assert!(rt; line.as_str() == "/nix/store/a0d1zlpv81nsfbam8ay3i7snrc0sgsvr-myfile\n");
    let line = root_line(alloc, &dir, "{censored}", TEXT)?;
    assert!(rt; line.as_str() == "{censored} /nix/store/a0d1zlpv81nsfbam8ay3i7snrc0sgsvr-myfile\n");
    Ok(())
}

#[test]
fn text_of_no_path(rt: HostRuntime) -> Result<(), Fail> {
    let alloc = rt.alloc();
    let dir = store_dir(alloc)?;
    assert!(rt; paths_text(alloc, &dir, &[])?.is_empty());
    Ok(())
}

const USAGE: &str = "class       paths            bytes
live            1              112
dead            1              208
total           2              320
";

fn usage(paths: usize, bytes: u128) -> Usage {
    Usage { paths, bytes }
}

#[test]
fn texts_of_usage(rt: HostRuntime) -> Result<(), Fail> {
    let text = usage_text(rt.alloc(), usage(1, 112), usage(1, 208), usage(2, 320))?;
    assert!(rt; text.as_str() == USAGE);
    Ok(())
}

/// The line of a denial, twice.
fn denial_lines(alloc: Global, dir: &StoreDir, rule: Rule) -> Result<String, AllocError> {
    let mut lines = denial_line(alloc, dir, rule, None)?;
    push_denial(&mut lines, rule)?;
    Ok(lines)
}

#[test]
fn lines_of_denials(rt: HostRuntime) -> Result<(), Fail> {
    let alloc = rt.alloc();
    let dir = store_dir(alloc)?;
    let lines = denial_lines(alloc, &dir, Rule::OwnRoot)?;
    assert!(rt; lines.as_str() == "denied: own-root\ndenied: own-root\n");
    Ok(())
}

/// The texts of two refusals.
fn refusal_texts(alloc: Global) -> Result<Vec<u8>, AllocError> {
    let mut text = Vec::new(alloc);
    refusal_text(39, &mut text)?;
    refusal_text(19, &mut text)?;
    Ok(text)
}

#[test]
fn lines_of_refusals(rt: HostRuntime) -> Result<(), Fail> {
    assert!(rt; refusal_line(Refusal::NoRoute) == "refused: 39 no-route\n");
    let text = refusal_texts(rt.alloc())?;
    assert!(rt; text.as_slice() == b"refused: 39 no-route\nrefused: 19 bad-config".as_slice());
    Ok(())
}

/// What a text prints, and the status.
fn printed(alloc: Global, text: &str, status: u8) -> (Vec<u8>, u8) {
    let mut writer = Vec::new(alloc);
    let found = print(text, status, &mut writer);
    (writer, found)
}

/// Whether a text is printed as it is, and the status is returned.
fn is_printed(alloc: Global, text: &str, status: u8) -> bool {
    let (writer, found) = printed(alloc, text, status);
    found == status && writer.as_slice() == text.as_bytes()
}

#[test]
fn texts_printed(rt: HostRuntime) {
    for (text, status) in [("generation 2\n", 0), ("denied: own-root\n", 4), ("", 3)] {
        assert!(rt; is_printed(rt.alloc(), text, status), "{text}");
    }
}

#[test]
fn lines_of_failures(rt: HostRuntime) {
    for (failed, line) in [
        (Failed::Memory, "failed: memory\n"),
        (Failed::Size, "failed: size\n"),
        (Failed::Disk, "failed: disk\n"),
    ] {
        assert!(rt; failure_line(failed) == line, "{line}");
        assert!(rt; failure_of(failed).line() == line, "{line}");
    }
}

#[test]
fn line_of_a_failure(rt: HostRuntime) {
    let mut text = Vec::new(rt.alloc());
    let status = print_failure(Failure::Input, &mut text);
    assert!(rt; status == 1 && text.as_slice() == b"failed: input\n".as_slice());
}

/// The texts of some replies, one after another.
fn texts_of(alloc: Global, dir: &StoreDir, replies: &[Reply]) -> Result<Vec<u8>, AllocError> {
    let mut text = Vec::new(alloc);
    for reply in replies {
        reply_text(alloc, dir, reply, &mut text)?;
    }
    Ok(text)
}

#[test]
fn texts_of_replies(rt: HostRuntime) -> Result<(), Fail> {
    let alloc = rt.alloc();
    let dir = store_dir(alloc)?;
    let replies = [
        Reply::Done(Answer::Changed),
        Reply::Done(Answer::Generation(2)),
        Reply::Denied(Rule::OwnRoot, None),
        Reply::Refused(store::Refusal::NotValid),
        Reply::Failed(Failed::Memory),
    ];
    let text = texts_of(alloc, &dir, &replies)?;
    let wanted = b"done\ngeneration 2\ndenied: own-root\nrefused: 23 not-valid\nfailed: memory\n";
    assert!(rt; text.as_slice() == wanted.as_slice());
    Ok(())
}

/// The number of pieces of the text of a reply, and the bytes of the first.
fn first_piece(
    alloc: Global,
    dir: &StoreDir,
    reply: Reply,
) -> Result<(usize, Vec<u8>), AllocError> {
    let pieces = reply_pieces(alloc, dir, reply)?;
    let first = Vec::from_slice(alloc, pieces.first())?;
    Ok((pieces.count(), first))
}

/// Whether the text of a reply is one piece, with these bytes.
fn is_one_piece(
    alloc: Global,
    dir: &StoreDir,
    reply: Reply,
    bytes: &[u8],
) -> Result<bool, AllocError> {
    let (count, first) = first_piece(alloc, dir, reply)?;
    Ok(count == 1 && first.as_slice() == bytes)
}

#[test]
fn pieces_of_lines(rt: HostRuntime) -> Result<(), Fail> {
    let alloc = rt.alloc();
    let dir = store_dir(alloc)?;
    let done = Reply::Done(Answer::Generation(2));
    assert!(rt; is_one_piece(alloc, &dir, done, b"generation 2\n")?);
    let denied = Reply::Denied(Rule::OwnRoot, None);
    assert!(rt; is_one_piece(alloc, &dir, denied, b"denied: own-root\n")?);
    let failed = Reply::Failed(Failed::Disk);
    assert!(rt; is_one_piece(alloc, &dir, failed, b"failed: disk\n")?);
    Ok(())
}

/// The answer of an archive that is a byte longer than a piece.
fn two_pieces(alloc: Global) -> Result<Reply, AllocError> {
    let mut nar = Pieces::new(alloc);
    nar.push(&[7; 65_536])?;
    nar.push(b"8")?;
    Ok(Reply::Done(Answer::Archive(nar)))
}

#[test]
fn pieces_of_an_archive(rt: HostRuntime) -> Result<(), Fail> {
    let alloc = rt.alloc();
    let dir = store_dir(alloc)?;
    let (count, first) = first_piece(alloc, &dir, two_pieces(alloc)?)?;
    assert!(rt; count == 2 && first.as_slice() == [7; 65_536].as_slice());
    Ok(())
}
