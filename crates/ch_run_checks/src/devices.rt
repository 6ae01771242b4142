//! Devices. An input is read to its end and a text is written whole, over calls that move few bytes or fail.
ghost use Rattle.std.specs.Prelude.{◌≡◌};

use ch_run::{Input, MemoryInput, MemoryOutput, Output, ReadAllFault, read_all, write_all};
use std::fmt::InlineText;
use std::process::Abort;
use std::test::Fail;

const TEXT: &[u8] = b"d 1 3 9\nd 3 1 -\n";

/// The greatest numbers of bytes that a device moves in one call: one, a few, or all of the text.
const PARTS: [usize; 3] = [1, 3, 1000];

#[test]
fn an_input_is_read_to_its_end_or_to_a_read_that_fails(rt: HostRuntime) -> Result<(), Fail> {
    for most in PARTS {
        // The last read returns no byte.
        let reads = TEXT.len().div_ceil(most) as u64 + 1;
        for before in 0..reads {
            let mut input = MemoryInput::new(TEXT, most).failing_after(before);
            let answer = read_all(rt.alloc(), &mut input).err();
            assert_eq!(rt;
                answer,
                Some(ReadAllFault::Device),
                "{most} at a read, {before} before"
            );
            assert_eq!(rt; input.failures(), 1);
        }
        let mut input = MemoryInput::new(TEXT, most).failing_after(reads);
        assert_eq!(rt; read_all(rt.alloc(), &mut input)?.as_slice(), TEXT);
        assert_eq!(rt; input.failures(), 0);
    }
    Ok(())
}

/// Expects that the output takes `count` bytes of the text. Also expects its counts of failures and of
/// writes without a byte.
fn expect_taken(rt: &impl Abort, output: MemoryOutput, count: usize, counted: (u64, u64))
    requires failures { ⟦<MemoryOutput as Output>⟧.failed output ≡ 0 }
    requires zeros { ⟦<MemoryOutput as Output>⟧.idle output ≡ 0 }
{
    let mut output = output;
    let answer = write_all(&mut output, TEXT).err();
    let owed = if count < TEXT.len() {
        Some(count as u64)
    } else {
        None
    };
    assert_eq!(rt; answer, owed);
    assert_eq!(rt; Some(output.bytes()), TEXT.get(..count));
    assert_eq!(rt; (output.failures(), output.zeros()), counted);
}

#[test]
fn a_text_is_written_whole_or_up_to_a_write_that_fails(rt: HostRuntime) -> Result<(), Fail> {
    for most in PARTS {
        let output = MemoryOutput::new(rt.alloc(), 100, most)?;
        expect_taken(&rt, output, TEXT.len(), (0, 0));
        for before in 0..TEXT.len().div_ceil(most) {
            let count = before.saturating_mul(most);
            let output = MemoryOutput::new(rt.alloc(), 100, most)?;
            expect_taken(&rt, output.failing_after(before as u64), count, (1, 0));
            let output = MemoryOutput::new(rt.alloc(), 100, most)?;
            expect_taken(&rt, output.idle_after(before as u64), count, (0, 1));
        }
    }
    // An output that is full takes no byte.
    let output = MemoryOutput::new(rt.alloc(), 5, 3)?;
    expect_taken(&rt, output, 5, (0, 1));
    Ok(())
}

/// What a derive writes has no clause.
#[test]
fn a_fault_of_an_input_has_words(rt: HostRuntime) -> Result<(), Fail> {
    let (device, memory) = (ReadAllFault::Device, ReadAllFault::Memory);
    assert_eq!(rt; InlineText::<40>::of(device).as_str(), "a read failed");
    assert_eq!(rt; InlineText::<40>::of(memory).as_str(), "out of memory");
    Ok(())
}
