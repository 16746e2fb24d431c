//! Names that were chosen to have one hash where it takes them as a whole.

use omf_communal::{Declaring, Scope, communals, variables};
use omf_place::Names;
use rows::put_record;
use std::alloc::{AllocError, Global};
use std::test::*;

/// How many names there are: a map that compares each with all before it takes seconds.
const COUNT: u32 = 20_000;

/// In a name of 32 bytes, eight that make the product of those in front of them 0 whatever these are.
const CANCELS: [u8; 8] = [0x15, 0x7C, 0x4A, 0x7F, 0xB9, 0x79, 0x37, 0x9E];

/// Appends the entry of a near variable of two bytes, whose name has this number.
fn push_entry(body: &mut Vec<u8>, number: u32) -> Result<(), AllocError> {
    body.push(32)?;
    body.extend_from_slice(&u64::from(number).to_le_bytes())?;
    body.extend_from_slice(&CANCELS)?;
    body.extend_from_slice(&[0x78; 16])?;
    body.extend_from_slice(&[0, 0x62, 2])
}

/// A module that declares all of them, 1,000 in a record.
fn declaring_module(alloc: Global) -> Result<Vec<u8>, AllocError> {
    let mut module = Vec::new(alloc);
    put_record(&mut module, 0x80, &[1, 0x41])?;
    let mut body = Vec::new(alloc);
    for number in 0..COUNT {
        push_entry(&mut body, number)?;
        if number % 1_000 == 999 {
            put_record(&mut module, 0xB0, &body)?;
            body.clear();
        }
    }
    put_record(&mut module, 0x8A, &[0])?;
    Ok(module)
}

#[test]
fn equal_hashes(rt: HostRuntime) -> Result<(), Fail> {
    let alloc = rt.alloc();
    let module = declaring_module(alloc)?;
    let Ok(declared) = communals(alloc, &module, Scope::Program) else {
        return Err(Fail::new(format_args!("no communal variables")));
    };
    let offered = Vec::new(alloc);
    let mut declaring = Vec::new(alloc);
    declaring.push(Declaring {
        communals: declared.as_slice(),
        offered: offered.as_slice(),
    })?;
    let Ok(all) = variables(alloc, Names::Exact, &declaring) else {
        return Err(Fail::new(format_args!("no variables")));
    };
    assert_eq!(rt; all.len(), COUNT as usize);
    Ok(())
}
