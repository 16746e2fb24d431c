use super::answers::read;
use omf_extended::ExtendedFault;
use refusing::Refusing;
use std::alloc::Global;

/// How often want of memory is told before the record is read, and whether it is. None where another fault is told.
fn wants(alloc: Global, kind: u8, body: &[u8]) -> Option<u32> {
    for number in 1..100 {
        let heap = Refusing::nth(alloc, number);
        match read(&heap, kind, body) {
            Err(ExtendedFault::Memory) => {}
            Ok(_) if !heap.has_refused() => return Some(number as u32 - 1),
            _ => return None,
        }
    }
    None
}

/// Each growth of a list is refused in turn.
#[test]
fn each_growth_is_refused(rt: HostRuntime) {
    assert_eq!(rt; wants(rt.alloc(), 0xB0, &[1, 65, 0, 0x62, 2]), Some(1));
    assert_eq!(rt; wants(rt.alloc(), 0xC6, &[1, 65, 1, 66]), Some(1));
    assert_eq!(rt; wants(rt.alloc(), 0xC4, &[0, 1, 7, 0, 0, 0]), Some(1));
    assert_eq!(rt; wants(rt.alloc(), 0xB2, &[1, 0, 7, 0, 0, 0]), Some(1));
    assert_eq!(rt;
        wants(rt.alloc(), 0xA3, &[1, 0, 0, 0, 0, 3, 0, 0, 0, 0, 0, 1, 65]),
        Some(1)
    );
}
