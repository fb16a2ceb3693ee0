//! A script line by line, each with its reply.

use std::alloc::{AllocError, Global};

pub(crate) const LINES: [(&str, &str); 12] = [
    ("task a 100\n", "ok 1\n"),
    ("claim a 10\n", "ok &8114\n"),
    ("claim a 10\n", "ok &8124\n"),
    ("claim a 10\n", "ok &8134\n"),
    ("release a &8124\n", "ok\n"),
    ("claim a 12\n", "ok &8124\n"),
    ("claim a 13\n", "ok &8144\n"),
    ("release a &8118\n", "refused NotABlock\n"),
    (
        "heap a\n",
        "ok 3840 3748 3752\n  used &8114 12\n  used &8124 12\n  used &8134 12\n  used &8144 20\n",
    ),
    ("release a &8114\n", "ok\n"),
    ("release a &8124\n", "ok\n"),
    (
        "heap a\n",
        "ok 3840 3748 3784\n  hole &8110 32\n  used &8134 12\n  used &8144 20\n",
    ),
];

/// The whole script.
pub(crate) fn script(alloc: Global) -> Result<Vec<u8>, AllocError> {
    let mut script = Vec::new(alloc);
    for (line, _reply) in LINES.iter() {
        script.extend_from_slice(line.as_bytes())?;
    }
    Ok(script)
}

/// The replies to the first lines of the script.
pub(crate) fn replies(alloc: Global, count: usize) -> Result<Vec<u8>, AllocError> {
    let mut text = Vec::new(alloc);
    for (_line, reply) in LINES.iter().take(count) {
        text.extend_from_slice(reply.as_bytes())?;
    }
    Ok(text)
}

/// How many complete lines the first bytes of a script have.
pub(crate) fn feeds_in(script: &[u8], len: usize) -> usize {
    script.iter().take(len).filter(|b| **b == b'\n').count()
}
