use plan_certificate::Certificate;
use plan_certificate::CertificateFault::TooMany;
use std::alloc::{AllocError, Global};
use std::test::Fail;

const HEAD: &str = "certificate 1\nweight 5\n";

const PATH: &str = "path 1 1 1\n";

const STATES: &str = "state 0 00 5\nstate 1 00 0\nstate 2 00 0\nstate 3 00 0\nstate 4 00 0\n\
    state 5 00 0\nstate 6 00 0\nstate 7 00 0\nstate 8 00 0\nstate 8 ff 0\n";

const END: &str = "end\n";

fn whole(alloc: Global) -> Result<String, AllocError> {
    format!(in alloc; "{HEAD}{PATH}{STATES}{END}")
}

#[test]
fn has_room_for_so_many_states(rt: HostRuntime) -> Result<(), Fail> {
    let text = whole(rt.alloc())?;
    assert_eq!(rt; Certificate::<10>::read(text.as_bytes()).err(), None);
    assert_eq!(rt;
        Certificate::<9>::read(text.as_bytes()).err(),
        Some(TooMany)
    );
    assert_eq!(rt;
        Certificate::<4>::read(text.as_bytes()).err(),
        Some(TooMany)
    );
    Ok(())
}

// What five bytes have no room for is taken from the text.
#[test]
fn keeps_large_potentials(rt: HostRuntime) -> Result<(), Fail> {
    let text = b"certificate 2\nweight 5\nkeep 15 8 8\npath 1 1 1\nstate 0 00 1090921693183\n\
        state 0 05 1090921693184\nstate 3 10 18446744073709551615\nstate 3 1f 0\n\
        state 8 ff 1099511627776\nend\n";
    let certificate = Certificate::<2304>::read(text)?;
    assert_eq!(rt; certificate.write(rt.alloc())?.as_slice(), text.as_slice());
    Ok(())
}
