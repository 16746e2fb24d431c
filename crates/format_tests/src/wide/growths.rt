use super::answers::read;
use omf_wide::WideFault;
use refusing::Refusing;
use std::alloc::Global;

/// How often want of memory is told before the record is read, and whether it is. None where another fault is told.
fn wants(alloc: Global, kind: u8, body: &[u8]) -> Option<u32> {
    for number in 1..100 {
        let heap = Refusing::nth(alloc, number);
        match read(&heap, kind, body) {
            Err(WideFault::Memory) => {}
            Ok(_) if !heap.has_refused() => return Some(number as u32 - 1),
            _ => return None,
        }
    }
    None
}

/// Each growth of a list is refused in turn.
#[test]
fn each_growth_is_refused(rt: HostRuntime) {
    let publics = [0, 1, 1, 65, 0, 0, 0, 0, 0, 1, 66, 0, 0, 0, 0, 0];
    assert_eq!(rt; wants(rt.alloc(), 0x91, &publics), Some(1));
    assert_eq!(rt; wants(rt.alloc(), 0x95, &[0, 1, 7, 0, 0, 0, 0, 0]), Some(1));
    assert_eq!(rt; wants(rt.alloc(), 0xCA, &[1, 65, 1, 66]), Some(1));
    assert_eq!(rt; wants(rt.alloc(), 0xB5, &[1, 65, 0]), Some(1));
    assert_eq!(rt; wants(rt.alloc(), 0xBC, &[1, 0]), Some(1));
    assert_eq!(rt; wants(rt.alloc(), 0x9D, &[0, 1]), Some(1));
}
