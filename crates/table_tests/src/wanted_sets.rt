//! Wanted sets, that they stay right if memory runs out, and the runs of a mapping on one.
use fakes::Refusing;
use font_map::{CodeRange, Groups, Mapping, Run, Wanted, WantedError, WordError};
use sfnt_bytes::{BASE6, NoMemory};
use std::alloc::Allocator;
use std::test::Fail;

// Returns whether a set has exactly the codes that a list says of the codes from 0 on, and none after
// them.
fn has_codes<A: Allocator>(wanted: &Wanted<A>, codes: &[bool]) -> bool {
    let mut code = 0u32;
    for has in codes {
        if wanted.contains(code) != *has {
            return false;
        }
        code = code.wrapping_add(1);
    }
    !wanted.contains(code) && !wanted.contains(0x10_FFFF) && !wanted.contains(u32::MAX)
}

fn put_codes(codes: &mut [bool], first: u32, last: u32) {
    let mut code = 0u32;
    for has in codes.iter_mut() {
        if first <= code && code <= last {
            *has = true;
        }
        code = code.wrapping_add(1);
    }
}

#[test]
fn bad_ranges_leave_the_set(rt: HostRuntime) -> Result<(), Fail> {
    let mut wanted = Wanted::new(rt.alloc());
    assert_eq!(rt; wanted.add(0x42, 0x41), Err(WantedError::BadRange));
    assert_eq!(rt; wanted.add(0, 0x11_0000), Err(WantedError::BadRange));
    assert!(rt; has_codes(&wanted, [false; 0x60].as_slice()));
    assert_eq!(rt; wanted.add(0x41, 0x42), Ok(()));
    let mut codes = [false; 0x60];
    put_codes(&mut codes, 0x41, 0x42);
    assert!(rt; has_codes(&wanted, codes.as_slice()));
    assert_eq!(rt; wanted.add(0x42, 0x41), Err(WantedError::BadRange));
    assert_eq!(rt; wanted.add(0, 0x11_0000), Err(WantedError::BadRange));
    assert_eq!(rt; wanted.add(u32::MAX, u32::MAX), Err(WantedError::BadRange));
    assert!(rt; has_codes(&wanted, codes.as_slice()));

    let all = Wanted::all(rt.alloc())?;
    assert!(rt; all.contains(0) && all.contains(0xFFFF) && all.contains(0x10_FFFF));
    assert!(rt; !all.contains(0x11_0000) && !all.contains(u32::MAX));
    Ok(())
}

#[test]
fn ranges_of_texts(rt: HostRuntime) -> Result<(), Fail> {
    let range: CodeRange = "U+41-5A".parse()?;
    assert_eq!(rt; (range.first, range.last), (0x41, 0x5A));
    let all = CodeRange {
        first: 0,
        last: 0x10_FFFF,
    };
    for word in ["all", "U+0-10FFFF"] {
        assert_eq!(rt; word.parse(), Ok::<CodeRange, WordError>(all));
    }
    for (word, error) in [
        ("U+110000", WordError::BadRange),
        ("U+42-41", WordError::BadRange),
        ("", WordError::BadWord),
        ("U+", WordError::BadWord),
        ("u+41", WordError::BadWord),
        ("U+41-U+42", WordError::BadWord),
    ] {
        assert_eq!(rt; word.parse::<CodeRange>(), Err(error));
    }
    Ok(())
}

// Ranges of a set, a range that is taken away, and the codes of 0x40 to 0x4F that stay.
#[test]
fn removed_ranges(rt: HostRuntime) -> Result<(), Fail> {
    for (first, last, left) in [
        (0x44, 0x45, " 123  6789A  DE "),
        (0x41, 0x4E, "                "),
        (0x46, 0x46, " 12345 789A  DE "),
        (0x43, 0x48, " 12      9A  DE "),
        (0x40, 0x40, " 123456789A  DE "),
        (0x4B, 0x4C, " 123456789A  DE "),
        (0x49, 0x4D, " 12345678     E "),
        (0, 0x10_FFFF, "                "),
    ] {
        let mut wanted = Wanted::new(rt.alloc());
        wanted.add(0x41, 0x4A)?;
        wanted.add(0x4D, 0x4E)?;
        assert_eq!(rt; wanted.remove(first, last), Ok(()));
        for (code, letter) in (0x40..0x50).zip(left.chars()) {
            assert_eq!(rt; wanted.contains(code), letter != ' ', "{first:X} {code:X}");
        }
        assert_eq!(rt;
            wanted.remove(last, first.saturating_sub(1)),
            Err(WantedError::BadRange)
        );
    }
    Ok(())
}

#[test]
fn texts_of_set_refusals(rt: HostRuntime) -> Result<(), Fail> {
    let alloc = rt.alloc();
    for (error, text, number) in [
        (WantedError::BadRange, "bad range", 15),
        (WantedError::NoMemory, "no memory", 16),
    ] {
        assert_eq!(rt; error.to_string(alloc)?.as_str(), text);
        assert_eq!(rt; error.number(), number);
    }
    for (error, text, number) in [
        (WordError::BadRange, "bad range", 15),
        (WordError::BadWord, "bad word", 26),
    ] {
        assert_eq!(rt; error.to_string(alloc)?.as_str(), text);
        assert_eq!(rt; error.number(), number);
    }
    Ok(())
}

#[test]
fn refused_set_of_all_codes(rt: HostRuntime) -> Result<(), Fail> {
    let memory = Refusing::new(rt.alloc(), 1);
    assert_eq!(rt; Wanted::all(&memory).err(), Some(NoMemory));
    let all = Wanted::all(&memory)?;
    assert!(rt; all.contains(0x10_FFFF));
    assert_eq!(rt; memory.requests(), 2);
    Ok(())
}

// Forty ranges apart, from the middle outwards, then one that has all of them: where a request is
// refused the set is as it was, and the same range is added once there is memory.
#[test]
fn refused_ranges(rt: HostRuntime) -> Result<(), Fail> {
    for k in 1..100u64 {
        let memory = Refusing::new(rt.alloc(), k);
        let mut wanted = Wanted::new(&memory);
        let mut codes = [false; 200];
        let mut refused = false;
        for i in 0..40u32 {
            let first = if i % 2 == 0 { 100 + 2 * i } else { 100 - 2 * i };
            if let Err(error) = wanted.add(first, first) {
                assert_eq!(rt; error, WantedError::NoMemory, "request {k}");
                assert!(rt; has_codes(&wanted, codes.as_slice()), "request {k}");
                assert_eq!(rt; wanted.add(1, 0), Err(WantedError::BadRange), "request {k}");
                assert_eq!(rt; wanted.add(first, first), Ok(()), "request {k}");
                refused = true;
            }
            put_codes(&mut codes, first, first);
            assert!(rt; has_codes(&wanted, codes.as_slice()), "request {k}");
        }
        let requests = memory.requests();
        assert_eq!(rt; wanted.add(5, 190), Ok(()));
        put_codes(&mut codes, 5, 190);
        assert!(rt; has_codes(&wanted, codes.as_slice()));
        assert_eq!(rt; memory.requests(), requests);
        if !memory.has_refused() {
            assert!(rt; !refused);
            return Ok(());
        }
        assert!(rt; refused, "request {k}");
    }
    panic!(rt; "each of 99 requests was refused")
}

// Forty codes are taken out of one range, which each time leaves one range more: where a request is refused the set is
// as it was, and the same code is taken away once there is memory.
#[test]
fn refused_removals(rt: HostRuntime) -> Result<(), Fail> {
    for k in 1..100u64 {
        let memory = Refusing::new(rt.alloc(), k);
        let mut wanted = Wanted::new(&memory);
        let mut codes = [false; 200];
        let mut refused = wanted.add(5, 190).is_err();
        if refused {
            assert_eq!(rt; wanted.add(5, 190), Ok(()), "request {k}");
        }
        put_codes(&mut codes, 5, 190);
        for i in 0..40u32 {
            let code = if i % 2 == 0 { 100 + 2 * i } else { 100 - 2 * i };
            if let Err(error) = wanted.remove(code, code) {
                assert_eq!(rt; error, WantedError::NoMemory, "request {k}");
                assert!(rt; has_codes(&wanted, codes.as_slice()), "request {k}");
                assert_eq!(rt; wanted.remove(code, code), Ok(()), "request {k}");
                refused = true;
            }
            codes[code as usize] = false;
            assert!(rt; has_codes(&wanted, codes.as_slice()), "request {k}");
        }
        if !memory.has_refused() {
            assert!(rt; !refused);
            return Ok(());
        }
        assert!(rt; refused, "request {k}");
    }
    panic!(rt; "each of 99 requests was refused")
}

#[test]
fn runs_of_mapping(rt: HostRuntime) -> Result<(), Fail> {
    let mapping = Mapping::choose(&BASE6[124..192], 6)?;
    let first = Run {
        first: 0x20,
        last: 0x20,
        glyph: 4,
    };
    assert_eq!(rt; mapping.next_run(0), Some(first));
    assert_eq!(rt; mapping.next_run(0xC2), None);
    assert_eq!(rt; mapping.mapped_count(), 4);
    let mut wanted = Wanted::new(rt.alloc());
    assert_eq!(rt; mapping.wanted_run(&wanted, 0), None);
    assert_eq!(rt; wanted.add(0x42, 0x42), Ok(()));
    let run = Run {
        first: 0x42,
        last: 0x42,
        glyph: 5,
    };
    assert_eq!(rt; mapping.wanted_run(&wanted, 0), Some(run));
    assert_eq!(rt; Groups::of(&mapping, &wanted).next(), Some(run));
    assert_eq!(rt; mapping.wanted_run(&wanted, 0x43), None);
    assert_eq!(rt; mapping.wanted_run(&wanted, 0x11_0000), None);
    assert_eq!(rt; mapping.wanted_run(&wanted, u32::MAX), None);
    Ok(())
}
