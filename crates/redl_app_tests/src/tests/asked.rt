//! What a call asks for.
use super::calls::{INSERTED, call, files_of};
use redl_io::{MemShelf, NotingShelf, NullSink, Text};
use std::alloc::{AllocError, Global};
use std::test::Fail;

// The shelf has the package `P` and the journals `J`, `K` and `L` of it.
fn files(alloc: Global) -> Result<Vec<(Text, Vec<u8>)>, AllocError> {
    files_of(alloc, INSERTED, "1", ["", "1\t1\taccept\tAnn\n", ""])
}

// A shelf that a call with the words of this line has asked.
fn asked_by(alloc: Global, line: &str) -> Result<NotingShelf<MemShelf>, AllocError> {
    let files = MemShelf::new(files(alloc)?, Vec::new(alloc));
    let mut shelf = NotingShelf::new(alloc, files);
    let _status = call(alloc, line, &mut shelf, &mut NullSink, &mut NullSink)?;
    Ok(shelf)
}

// The names that it was asked for, with a space after each.
fn names_of(alloc: Global, shelf: &NotingShelf<MemShelf>) -> Result<Vec<u8>, AllocError> {
    let mut names = Vec::new(alloc);
    for request in shelf.requests() {
        names.extend_from_slice(request.name.as_bytes())?;
        names.push(b' ')?;
    }
    Ok(names)
}

// The most bytes that it was asked for, request by request.
fn caps_of(alloc: Global, shelf: &NotingShelf<MemShelf>) -> Result<Vec<usize>, AllocError> {
    let mut caps = Vec::new(alloc);
    for request in shelf.requests() {
        caps.push(request.cap)?;
    }
    Ok(caps)
}

#[test]
fn files_are_asked_for_in_the_order_of_the_words(rt: HostRuntime) -> Result<(), Fail> {
    let alloc = rt.alloc();
    for (line, names) in [
        ("settle accept P", "P "),
        ("check P", "P "),
        ("text P", "P "),
        ("write P J K", "P J K "),
        ("write P K --lock Ann J", "P K J "),
        ("page P L --title K J --rank 3", "P L J "),
        ("decide P Ann --accept all --journal J", "P J "),
        ("join K J", "K J "),
        ("resume P P K --journal L --journal J", "P L J P K "),
        ("resume P P J --journal L", "P L P J "),
        // each as often as the words have it
        ("write P J J", "P J J "),
        // up to the first refusal
        ("write Q J", "Q "),
        ("write P J Q K", "P J Q "),
        ("write P P K", "P P "),
        ("resume P Q K --journal J", "P J Q "),
        // none
        ("list P J", ""),
        ("report P J", ""),
        ("write", ""),
        ("sample 3", ""),
    ] {
        let asked = names_of(alloc, &asked_by(alloc, line)?)?;
        let is_wanted = asked.as_slice() == names.as_bytes();
        assert!(rt; is_wanted, "{line}");
    }
    Ok(())
}

#[test]
fn a_file_is_asked_for_up_to_one_byte_over_its_limit(rt: HostRuntime) -> Result<(), Fail> {
    let alloc = rt.alloc();
    // The second of two journals may have what the first one leaves of the limit, which has 104 bytes.
    for (line, wanted) in [
        ("check P", [134_217_729].as_slice()),
        (
            "write P J K",
            [134_217_729, 67_108_865, 67_108_761].as_slice(),
        ),
        ("join J K", [67_108_865, 67_108_761].as_slice()),
        (
            "resume P P K --journal J",
            [134_217_729, 67_108_865, 134_217_729, 67_108_761].as_slice(),
        ),
    ] {
        let caps = caps_of(alloc, &asked_by(alloc, line)?)?;
        let is_wanted = caps.as_slice() == wanted;
        assert!(rt; is_wanted, "{line}: {caps:?}");
    }
    Ok(())
}
