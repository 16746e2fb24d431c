//! Files of definitions, as lines of LINK and TLINK name them.
use makefile_words::parse_definitions;
use std::alloc::{AllocError, Global};

/// The answer to a file, printed.
fn answer(alloc: Global, text: &str) -> Result<String, AllocError> {
    format!(in alloc; "{:?}", parse_definitions(alloc, text))
}

#[test]
fn reads_definitions(rt: HostRuntime) {
    let rows = r#"NAME prog
DESCRIPTION 'a program'
STACKSIZE 5120
=>
Ok([IdleAt { place: 0, idle: Definition }, IdleAt { place: 10, idle: Definition }, IdleAt { place: 34, idle: Definition }])
---
; a comment

  stacksize 0x1400 ; bytes
  description "it's; so";more
Name
=>
Ok([IdleAt { place: 15, idle: Definition }, IdleAt { place: 42, idle: Definition }, IdleAt { place: 70, idle: Definition }])
---
NAME what "it; 'likes
Description'text'
=>
Ok([IdleAt { place: 0, idle: Definition }, IdleAt { place: 22, idle: Definition }])
---

=>
Ok([])
---
NAME x
EXETYPE WINDOWS
=>
Err(Word { place: 7, word: "EXETYPE", kind: Definitions })
---
NAMES x
=>
Err(Word { place: 0, word: "NAMES", kind: Definitions })
---
 'x'
=>
Err(Word { place: 1, word: "'x", kind: Definitions })
---
DESCRIPTION text
=>
Err(Word { place: 0, word: "DESCRIPTION", kind: NoDescription })
---
DESCRIPTION 'text"
=>
kind: NoDescription
---
DESCRIPTION 'text' x
=>
kind: NoDescription
---
STACKSIZE
=>
Err(Word { place: 0, word: "STACKSIZE", kind: NoStackSize })
---
STACKSIZE 4k
=>
kind: NoStackSize
---
STACKSIZE 4096,512 4096
=>
kind: NoStackSize
---
STACKSIZE 4096 x
=>
kind: NoStackSize"#;
    for row in rows.split("\n---\n") {
        let (text, part) = row.split_once("\n=>\n").unwrap_or((row, "no part"));
        let printed = answer(rt.alloc(), text).expect(&rt, "text");
        assert!(&rt; printed.as_str().contains(part), "{row}: {printed}");
    }
}
