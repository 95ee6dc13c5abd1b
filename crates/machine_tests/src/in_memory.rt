//! A source, keepers and files that lie in memory, and fail at the calls that they are told to fail at.

ghost use Rattle.std.specs.Prelude.{Some};

use init_base::{
    Failed, Files, Keeper, List, MemFiles, MemKeeper, MemSource, NoMemory, ReadRefusal, Source,
    SteadyFiles, SteadyKeeper, Text, read_all,
};
use std::alloc::Global;
use std::test::Fail;

/// The number of a call that fails.
fn call(alloc: Global, number: u64) -> Result<List<u64>, NoMemory> {
    let mut fail = List::new(alloc);
    fail.push(number)?;
    Ok(fail)
}

/// A source that gives at most three bytes at once.
#[derive(Drop)]
struct Slow {
    inner: MemSource,
}

impl Source for Slow {
    ghost left = { λ s. Some s.inner.content };

    ghost fault_count = { λ s. s.inner.calls.faults };

    fn faults(&self) -> u64 {
        self.inner.faults()
    }

    fn read(&mut self, buf: &mut [u8]) -> Result<usize, Failed> {
        let room = buf.len().min(3);
        self.inner.read(&mut buf[..room])
    }
}

/// What reading ten bytes to their end gives, of which three are read at once; a call of this number fails.
fn read_ten(alloc: Global, number: u64, limit: usize) -> Result<bool, ReadRefusal> {
    let inner = MemSource::new(Text::of(alloc, b"0123456789")?, call(alloc, number)?);
    let text = read_all(alloc, &mut Slow { inner }, limit)?;
    Ok(text.is(b"0123456789"))
}

/// Reads 1 to 4 give the bytes, and read 5 the end.
#[test]
fn sources_are_read_to_their_end(rt: HostRuntime) {
    let alloc = rt.alloc();
    assert_eq!(rt; read_ten(alloc, 6, 10), Ok(true));
    assert_eq!(rt; read_ten(alloc, 6, 9), Err(ReadRefusal::TooLarge));
    assert_eq!(rt; read_ten(alloc, 5, 10), Err(ReadRefusal::Failed));
}

/// Whether a keeper loads a text of at most two bytes.
fn loads<K: Keeper>(alloc: Global, keeper: &mut K, text: &[u8]) -> bool {
    match keeper.load(alloc, 2) {
        Ok(held) => held.is(text),
        Err(_) => false,
    }
}

/// A keeper of `a` takes `b` where its second call doesn't fail, and then holds it.
fn takes<K: Keeper>(alloc: Global, keeper: &mut K) -> bool {
    loads(alloc, keeper, b"a") && keeper.replace(alloc, b"b").is_ok() && loads(alloc, keeper, b"b")
}

#[test]
fn keepers_in_memory(rt: HostRuntime) -> Result<(), Fail> {
    let alloc = rt.alloc();
    let mut steady = SteadyKeeper::new(Text::of(alloc, b"a")?);
    assert!(rt; takes(alloc, &mut steady));
    let mut failing = MemKeeper::new(Text::of(alloc, b"a")?, call(alloc, 2)?);
    assert!(rt; !takes(alloc, &mut failing) && failing.faults() == 1);
    assert!(rt; takes(alloc, &mut failing));
    Ok(())
}

/// Two files, of which one stands in a directory below that of the other.
fn entries(alloc: Global) -> Result<List<(Text, Text)>, NoMemory> {
    let mut entries = List::new(alloc);
    entries.push((Text::of(alloc, b"/etc/b.rc")?, Text::of(alloc, b"B")?))?;
    entries.push((Text::of(alloc, b"/etc/sub/c.rc")?, Text::of(alloc, b"CCC")?))?;
    Ok(entries)
}

/// Whether a directory holds so many names.
fn holds<F: Files>(alloc: Global, files: &mut F, dir: &[u8], count: usize) -> bool {
    match files.list(alloc, dir) {
        Ok(Some(names)) => names.len() == count,
        _ => false,
    }
}

/// Whether a file of at most two bytes has these.
fn has<F: Files>(alloc: Global, files: &mut F, path: &[u8], bytes: &[u8]) -> bool {
    match files.read(alloc, path, 2) {
        Ok(Some(content)) => content.is(bytes),
        _ => false,
    }
}

#[test]
fn files_in_memory(rt: HostRuntime) -> Result<(), Fail> {
    let alloc = rt.alloc();
    let mut steady = SteadyFiles::new(entries(alloc)?);
    assert!(rt; holds(alloc, &mut steady, b"/etc", 1) && !holds(alloc, &mut steady, b"/et", 1));
    assert!(rt;
        has(alloc, &mut steady, b"/etc/b.rc", b"B") && !has(alloc, &mut steady, b"/etc", b"")
    );
    let mut failing = MemFiles::new(entries(alloc)?, call(alloc, 1)?);
    assert!(rt; !holds(alloc, &mut failing, b"/etc", 1) && holds(alloc, &mut failing, b"/etc", 1));
    assert!(rt; failing.faults() == 1);
    Ok(())
}
