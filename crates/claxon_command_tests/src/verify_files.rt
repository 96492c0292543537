//! `claxon verify` of several files: named one by one, in a list, and in a folder. The status is the worst.
use claxon_commands::verify::command;
use claxon_testing::answers::{FRAME, head, joined};
use claxon_testing::command_lines::owned;
use claxon_testing::temporary_files::path_of;
use std::fs;
use std::test::Fail;

// What a file is.
#[derive(Clone, Copy, Debug)]
enum Kind {
    Right,
    Wrong,
    NotSupported,
}

use Kind::{NotSupported, Right, Wrong};

// Files, and the status: 1 if one is wrong, else 3 if one isn't supported.
const ROWS: [([Kind; 3], u8); 10] = [
    ([Right, Right, Right], 0),
    ([Wrong, Right, Right], 1),
    ([Right, Wrong, Right], 1),
    ([Right, Right, Wrong], 1),
    ([NotSupported, Right, Right], 3),
    ([Right, NotSupported, Right], 3),
    ([Right, Right, NotSupported], 3),
    ([NotSupported, Wrong, Right], 1),
    ([Wrong, NotSupported, Right], 1),
    ([Wrong, Right, NotSupported], 1),
];

const NAMES: [&str; 3] = ["a.flac", "b.flac", "c.flac"];

// Writes files of these kinds into the folder, and returns their paths.
fn put_files(rt: &HostRuntime, folder: &str, kinds: [Kind; 3]) -> Result<Vec<String>, Fail> {
    let right = joined(rt.alloc(), &[&head(0x80), &FRAME])?;
    let mut paths = Vec::new(rt.alloc());
    for (name, kind) in NAMES.into_iter().zip(kinds) {
        let bytes = match kind {
            Right => right.as_slice(),
            Wrong => b"fLaD".as_slice(),
            NotSupported => b"ID3\x04".as_slice(),
        };
        let path = format!(in rt.alloc(); "{folder}/{name}")?;
        fs::write(rt, path.as_str(), bytes)?;
        paths.push(path)?;
    }
    Ok(paths)
}

// Files whose names begin with dots, and one in such a folder, in order of their names.
const HIDDEN: [&str; 4] = ["...flac", "..a.flac", ".b.flac", ".c/.d.flac"];

// Whether a folder with these files has a line for each of them.
fn tells_hidden(rt: &HostRuntime, folder: &str) -> Result<bool, Fail> {
    let right = joined(rt.alloc(), &[&head(0x80), &FRAME])?;
    let mut lines = String::new(rt.alloc());
    for name in HIDDEN {
        let path = format!(in rt.alloc(); "{folder}/{name}")?;
        fs::write(rt, path.as_str(), right.as_slice())?;
        write!(&mut lines, "{path}: ok, 1 frame, 1 sample, no MD5 sum\n")?;
    }
    let words = owned(rt.alloc(), &["-r", folder])?;
    Ok(match said(rt, &words, b"") {
        Some((0, output)) => output.as_slice() == lines.as_bytes(),
        _ => false,
    })
}

// The status and the output of a command line, if there are no errors.
fn said(rt: &HostRuntime, words: &[String], input: &[u8]) -> Option<(u8, Vec<u8>)> {
    let (mut output, mut errors): (Vec<u8>, Vec<u8>) = (Vec::new(rt.alloc()), Vec::new(rt.alloc()));
    let status = command(rt, words, input, &mut output, false, &mut errors);
    if errors.is_empty() {
        Some((status, output))
    } else {
        None
    }
}

// The same of the files in a list, in standard input.
fn said_of_list(rt: &HostRuntime, paths: &[String]) -> Result<Option<(u8, Vec<u8>)>, Fail> {
    let mut list = Vec::new(rt.alloc());
    for path in paths {
        list.extend_from_slice(path.as_bytes())?;
        list.push(0)?;
    }
    let words = owned(rt.alloc(), &["--files0-from", "-"])?;
    Ok(said(rt, &words, list.as_slice()))
}

// How many lines the output has, where the status is this one.
fn line_count(answer: &Option<(u8, Vec<u8>)>, status: u8) -> Option<usize> {
    match answer {
        Some((found, output)) if *found == status => {
            Some(output.iter().filter(|byte| **byte == b'\n').count())
        }
        _ => None,
    }
}

// Whether a folder with these files has this status in each way, and a line for each file.
fn has_status(rt: &HostRuntime, folder: &str, kinds: [Kind; 3], status: u8) -> Result<bool, Fail> {
    let paths = put_files(rt, folder, kinds)?;
    let named = said(rt, &paths, b"");
    let listed = said_of_list(rt, &paths)?;
    let words = owned(rt.alloc(), &["-r", folder])?;
    let found = said(rt, &words, b"");
    Ok(line_count(&named, status) == Some(3) && listed == named && found == named)
}

// Whether a folder without files isn't passed over in silence.
fn tells_no_files(rt: &HostRuntime, folder: &str) -> Result<bool, Fail> {
    let words = owned(rt.alloc(), &["-r", "--json", folder])?;
    let line = format!(in rt.alloc();
        "{{\"name\":\"{folder}\",\"verdict\":\"not read\",\"reason\":\"no FLAC files\"}}\n"
    )?;
    Ok(match said(rt, &words, b"") {
        Some((1, output)) => output.as_slice() == line.as_bytes(),
        _ => false,
    })
}

#[test]
fn worst_status(rt: HostRuntime) -> Result<(), Fail> {
    let folder = path_of(&rt, "verify_files")?;
    fs::create_dir(&rt, folder.as_str())?;
    assert!(rt; tells_no_files(&rt, folder.as_str())?);
    for (kinds, status) in ROWS {
        assert!(rt;
            has_status(&rt, folder.as_str(), kinds, status)?,
            "{kinds:?}"
        );
    }
    fs::remove_dir_all(&rt, folder.as_str())?;
    Ok(())
}

// No file is hidden from `-r`: only `.` and `..` are passed over.
#[test]
fn hidden_files(rt: HostRuntime) -> Result<(), Fail> {
    let folder = path_of(&rt, "hidden_files")?;
    let inner = format!(in rt.alloc(); "{folder}/.c")?;
    fs::create_dir(&rt, folder.as_str())?;
    fs::create_dir(&rt, inner.as_str())?;
    assert!(rt; tells_hidden(&rt, folder.as_str())?);
    fs::remove_dir_all(&rt, folder.as_str())?;
    Ok(())
}
