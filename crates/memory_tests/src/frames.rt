//! A configuration and a frame.
use case_lines::VENUE;
use fix_fields::{FrameWriter, Memory};
use std::alloc::Global;
use std::test::Fail;
use venue_config::{ConfigFault, read_config};
use venue_rows::VenueConfig;

/// A configuration; where memory was refused, the same call made again.
fn read_at_last(alloc: Global) -> Result<VenueConfig, ConfigFault> {
    match read_config(alloc, VENUE) {
        Err(ConfigFault::Memory) => read_config(alloc, VENUE),
        other => other,
    }
}

/// A copy of it, in the same way.
fn copied_at_last(alloc: Global, config: &VenueConfig) -> Result<VenueConfig, Memory> {
    match config.copy(alloc) {
        Ok(copy) => Ok(copy),
        Err(_) => config.copy(alloc),
    }
}

#[test]
fn a_refused_configuration_is_read_again(rt: HostRuntime) -> Result<(), Fail> {
    let config = read_at_last(rt.alloc())?;
    let copy = copied_at_last(rt.alloc(), &config)?;
    for rows in [&config, &copy] {
        assert!(rt; rows.date().digits().as_slice() == b"20250314".as_slice());
        assert_eq!(rt; rows.bonds().len(), 1);
        assert_eq!(rt; rows.dealers().len(), 2);
        assert!(rt;
            rows.dealer(1)
                .is_some_and(|row| row.name.as_bytes() == b"DLR2".as_slice())
        );
        assert!(rt;
            rows.investor(2)
                .is_some_and(|row| row.quantity == 5_000_000)
        );
    }
    Ok(())
}

/// A Quote as a frame of 133 bytes.
const QUOTE: &[u8] = b"8=FIXT.1.1\x019=109\x0135=S\x0149=DLR1\x0156=VENUE\x0134=1\x01\
    52=20250314-09:00:10.000\x0150=T1\x01117=a1\x01131=R1\x0148=BONDA0000001\x0122=4\x01\
    133=99.50390625\x0110=039\x01";

/// The frame, field by field.
fn quote(alloc: Global) -> Result<Vec<u8>, Memory> {
    let mut writer = FrameWriter::new(alloc, b"S")?;
    writer.text(49, b"DLR1")?;
    writer.text(56, b"VENUE")?;
    writer.number(34, 1)?;
    writer.text(52, b"20250314-09:00:10.000")?;
    writer.text(50, b"T1")?;
    writer.text(117, b"a1")?;
    writer.text(131, b"R1")?;
    writer.text(48, b"BONDA0000001")?;
    writer.number(22, 4)?;
    writer.text(133, b"99.50390625")?;
    let bytes = writer.finish()?;
    Ok(bytes)
}

#[test]
fn a_refused_frame_is_written_again(rt: HostRuntime) -> Result<(), Fail> {
    let bytes = match quote(rt.alloc()) {
        Ok(bytes) => bytes,
        Err(_) => quote(rt.alloc())?,
    };
    assert!(rt; bytes.as_slice() == QUOTE);
    Ok(())
}
