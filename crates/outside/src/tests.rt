// What no clause says: that calls succeed with ample memory, which call a number names, and what the
// system's files answer.
ghost use Rattle.std.specs.Prelude.{◌≡◌, ◌∷◌, [], codes, Some, None, IfOk, true, false};
ghost use Rattle.std.specs.FinMap.{get};
ghost use Rattle.outside.specs.FolderPath.{is_path};
ghost use Rattle.outside.specs.Texts.{contents_of};
ghost use Rattle.outside.specs.Told.{IsToldBy};
ghost use Rattle.outside.specs.Worked.{red_text};

use crate::{
    Content, Failed, FetchFault, FolderSource, Input, MemoryInput, MemorySink, MemorySource,
    RealInput, RealSink, Sink, Source, Told, WriteFault,
};
use std::alloc::{AllocError, Allocator, Global};
use std::fs::OpenFile;
use std::io::{BufRead, ErrorKind, Lines, Read, Write};
use std::snapshot::Snapshot;
use std::test::Fail;
use std::{fs, io, process};

// The definitions themselves on worked urls, computed where the tests are proved.
fn worked_paths()
    ensures file { is_path (codes "images/red-1_0.ppm") ≡ true }
    ensures above { is_path (codes "images/../long") ≡ false }
    ensures here { is_path (codes "./long") ≡ false }
    ensures rooted { is_path (codes "/long") ≡ false }
    ensures folder { is_path (codes "long/") ≡ false }
    ensures star { is_path (codes "lo*g") ≡ false }
    ensures empty { is_path [] ≡ false }
{}

// And on worked texts: of two at one address the first counts.
fn worked_contents()
    ensures found { get (contents_of (red_text (codes "1") 1 ∷ red_text (codes "2") 2 ∷ []))
        (codes "red", codes "2") ≡ Some (2 ∷ []) }
    ensures first { get (contents_of (red_text (codes "1") 1 ∷ red_text (codes "1") 2 ∷ []))
        (codes "red", codes "1") ≡ Some (1 ∷ []) }
    ensures missing { get (contents_of (red_text (codes "1") 1 ∷ [])) (codes "red", codes "2") ≡ None }
{}

// What two sources in memory tell together. It takes no bytes, so that no run shows it.
fn told_by_two(first: MemorySource, second: MemorySource) -> Told
    ensures { IsToldBy (Some (contents_of first.texts) ∷ Some (contents_of second.texts) ∷ []) result }
{
    Told::of(&[first, second])
}

#[test]
fn sources_tell_a_content_together(rt: HostRuntime) {
    let alloc = rt.alloc();
    let first = MemorySource::new(Vec::new(alloc), Vec::new(alloc));
    let second = MemorySource::new(Vec::new(alloc), Vec::new(alloc));
    let told = told_by_two(first, second);
    let _ = (Told::shown_by(Snapshot::of(&told)), Told::nothing());
}

#[test]
fn memory_input_fails_at_its_second_call(rt: HostRuntime) -> Result<(), Fail> {
    let alloc = rt.alloc();
    let mut input = MemoryInput::new(vec![in alloc; 1, 2, 3]?, vec![in alloc; 1]?);
    let mut into = [0u8; 2];
    let first = input.read(&mut into);
    let second = input.read(&mut into);
    let third = input.read(&mut into);
    let fourth = input.read(&mut into);
    assert_eq!(rt;
        (first, second, third, fourth),
        (Ok(2), Err(Failed), Ok(1), Ok(0))
    );
    assert_eq!(rt; into, [3, 2]);
    Ok(())
}

#[test]
fn memory_sink_counts_writes_and_flushes_together(rt: HostRuntime) -> Result<(), Fail> {
    let mut sink = MemorySink::new(2, vec![in rt.alloc(); 1, 3]?);
    let first = sink.write(b"abc");
    let second = sink.flush();
    let third = sink.write(b"c");
    let fourth = sink.flush();
    assert_eq!(rt; (first, third), (Ok(2), Ok(1)));
    assert_eq!(rt;
        (second, fourth),
        (Err(WriteFault::Failed), Err(WriteFault::Failed))
    );
    assert_eq!(rt; sink.written(), b"abc".as_slice());
    Ok(())
}

fn text(alloc: Global, url: &[u8], sig: &[u8], bytes: &[u8]) -> Result<Content, AllocError> {
    Ok(Content {
        url: url.to_vec(alloc)?,
        sig: sig.to_vec(alloc)?,
        bytes: bytes.to_vec(alloc)?,
    })
}

// The length of an answer, or why there is none.
fn length_of(answer: Result<Option<Vec<u8>>, FetchFault>) -> Result<Option<usize>, FetchFault> {
    match answer {
        Ok(Some(bytes)) => Ok(Some(bytes.len())),
        Ok(None) => Ok(None),
        Err(fault) => Err(fault),
    }
}

#[test]
fn memory_source_fails_at_its_second_call(rt: HostRuntime) -> Result<(), Fail> {
    let alloc = rt.alloc();
    let old = text(alloc, b"red", b"1", b"old")?;
    let new = text(alloc, b"red", b"2", b"newer")?;
    let mut source = MemorySource::new(vec![in alloc; old, new]?, vec![in alloc; 1]?);
    let first = length_of(source.fetch(alloc, b"red", b"2"));
    let second = length_of(source.fetch(alloc, b"red", b"1"));
    let third = length_of(source.fetch(alloc, b"red", b"3"));
    assert_eq!(rt;
        (first, second, third),
        (Ok(Some(5)), Err(FetchFault::Failed), Ok(None))
    );
    assert_eq!(rt; source.fetches(), 3);
    Ok(())
}

// A runtime whose standard input is a script of seven bytes.
struct Script;

impl io::Input for Script {
    type Reader = &'static [u8];

    fn read_line<A: Allocator + Clone>(&self, _buf: &mut String<A>) -> io::Result<usize> {
        Ok(0)
    }

    fn lines<A: Allocator>(&self, alloc: A) -> Lines<&'static [u8], A> {
        self.reader().lines(alloc)
    }

    fn reader(&self) -> &'static [u8] {
        b"dump v\n"
    }
}

#[test]
fn real_input_reads_to_the_end(rt: HostRuntime) {
    let mut input = RealInput::new(&Script);
    let mut into = [0u8; 4];
    let first = input.read(&mut into);
    let second = input.read(&mut into);
    let third = input.read(&mut into);
    assert_eq!(rt; (first, second, third), (Ok(4), Ok(3), Ok(0)));
    assert_eq!(rt; into, *b" v\np");
}

// A stream of which every second call fails, the first not.
#[derive(Drop)]
struct EverySecondFails {
    fails: bool,
}

impl EverySecondFails {
    fn next(&mut self) -> io::Result<usize>
        ensures { IfOk result (λ count. count ≡ 1) }
    {
        self.fails = !self.fails;
        if self.fails {
            Ok(1)
        } else {
            Err(io::Error::from(ErrorKind::BrokenPipe))
        }
    }
}

impl Read for EverySecondFails {
    fn read(&mut self, into: &mut [u8]) -> io::Result<usize> {
        let count = self.next()?;
        Ok(count.min(into.len()))
    }
}

impl Write for EverySecondFails {
    fn write(&mut self, bytes: &[u8]) -> io::Result<usize> {
        let count = self.next()?;
        Ok(count.min(bytes.len()))
    }

    fn flush(&mut self) -> io::Result<()> {
        self.next()?;
        Ok(())
    }
}

#[test]
fn real_input_tells_a_failure_in_mid_run(rt: HostRuntime) {
    let mut input = RealInput::over(EverySecondFails { fails: false });
    let mut into = [0u8; 4];
    let first = input.read(&mut into);
    let second = input.read(&mut into);
    let third = input.read(&mut into);
    assert_eq!(rt; (first, second, third), (Ok(1), Err(Failed), Ok(1)));
}

#[test]
fn real_sink_tells_failures_in_mid_run(rt: HostRuntime) {
    let mut sink = RealSink::over(EverySecondFails { fails: false });
    assert_eq!(rt; sink.write(b"ab"), Ok(1));
    assert_eq!(rt; sink.write(b"b"), Err(WriteFault::Failed));
    assert_eq!(rt; sink.flush(), Ok(()));
    assert_eq!(rt; sink.flush(), Err(WriteFault::Failed));
    assert_eq!(rt; sink.write(b"b"), Ok(1));
}

#[test]
fn real_sink_writes_to_standard_output(rt: HostRuntime) {
    let mut sink = RealSink::new(&rt);
    assert_eq!(rt; sink.write(b"v done\n"), Ok(7));
    assert_eq!(rt; sink.flush(), Ok(()));
}

// What the system's file holds that the test below reads first.
const RED: &[u8] = b"P6\n1 1\n255\n\xff\0\0";

fn put_file(rt: &HostRuntime, folder: &str, name: &str, bytes: &[u8]) -> Result<(), Fail> {
    fs::write(
        rt,
        format!(in rt.alloc(); "{folder}/{name}")?.as_str(),
        bytes,
    )?;
    Ok(())
}

// A file of so many bytes that has no block on the disk.
fn make_sparse(rt: &HostRuntime, folder: &str, name: &str, length: usize) -> Result<(), Fail> {
    let file = fs::create(rt, format!(in rt.alloc(); "{folder}/{name}")?.as_str())?;
    file.set_len(length as u64)?;
    Ok(())
}

// A folder with the picture `images/red.ppm`, `long` of 300,000 bytes, `empty`, `longest` of as many bytes as
// a file may have, and `huge`, which has one more.
fn make_folder(rt: &HostRuntime, folder: &str) -> Result<(), Fail> {
    let alloc = rt.alloc();
    fs::create_dir_all(rt, format!(in alloc; "{folder}/images")?.as_str())?;
    put_file(rt, folder, "images/red.ppm", RED)?;
    put_file(rt, folder, "long", vec![in alloc; 7u8; 300_000]?.as_slice())?;
    put_file(rt, folder, "empty", b"")?;
    make_sparse(rt, folder, "longest", 268_435_456)?;
    make_sparse(rt, folder, "huge", 268_435_457)
}

// Whether each of the urls is answered so.
fn all_answer(
    alloc: Global,
    source: &mut FolderSource<'_, HostRuntime>,
    urls: &[&str],
    want: Result<Option<usize>, FetchFault>,
) -> bool {
    let mut same = true;
    for url in urls {
        same = same && length_of(source.fetch(alloc, url.as_bytes(), b"any")) == want;
    }
    same
}

#[test]
fn folder_source_reads_its_files_alone(rt: HostRuntime) -> Result<(), Fail> {
    let alloc = rt.alloc();
    let folder = format!(in alloc; "/tmp/outside_folder_{}", process::id(rt.process()))?;
    make_folder(&rt, folder.as_str())?;
    let mut source = FolderSource::new(&rt, folder.as_str());
    let red = source.fetch(alloc, b"images/red.ppm", b"any");
    assert!(rt; matches!(&red, Ok(Some(bytes)) if bytes.as_slice() == RED));
    assert!(rt; all_answer(alloc, &mut source, &["long"], Ok(Some(300_000))));
    assert!(rt; all_answer(alloc, &mut source, &["empty"], Ok(Some(0))));
    assert!(rt; all_answer(alloc, &mut source, &["longest"], Ok(Some(268_435_456))));
    let nothing = [
        "blue",
        "no/blue",
        "images/../long",
        "./long",
        "/long",
        "long/",
        "lo*g",
        "",
    ];
    assert!(rt; all_answer(alloc, &mut source, &nothing, Ok(None)));
    let failed = ["images", "long/red", "huge"];
    assert!(rt; all_answer(alloc, &mut source, &failed, Err(FetchFault::Failed)));
    fs::remove_dir_all(&rt, folder.as_str())?;
    Ok(())
}

// What is no regular file is not opened.
#[test]
fn folder_source_opens_no_device(rt: HostRuntime) {
    let answer = FolderSource::new(&rt, "/dev").fetch(rt.alloc(), b"null", b"");
    assert!(rt; matches!(answer, Err(FetchFault::Failed)));
}

// The system says that such a file has no bytes.
#[test]
fn folder_source_reads_a_file_whose_length_lies(rt: HostRuntime) {
    let answer = FolderSource::new(&rt, "/proc").fetch(rt.alloc(), b"version", b"");
    assert!(rt; matches!(&answer, Ok(Some(bytes)) if !bytes.is_empty()));
}
