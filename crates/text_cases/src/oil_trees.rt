//! Files with their trees.
use oil_lexer::{Tokens, tokens};
use oil_tree::{Attr, Object, Sign, Tree, Value, one_answer, parse};
use std::alloc::Global;

fn is_word(value: &Value, word: &[u8]) -> bool {
    match value {
        Value::Word(name) => name.as_bytes() == word,
        _ => false,
    }
}

fn is_object(object: &Object, kind: &[u8], name: &[u8], line: u32) -> bool {
    object.kind.as_bytes() == kind && object.name.as_bytes() == name && object.line == line
}

fn is_attr(attr: &Attr, name: &[u8], line: u32) -> bool {
    attr.name.as_bytes() == name && attr.line == line
}

/// A file with each of its parts.
const FILE: &[u8] =
    b"OIL_VERSION = \"2.5\" : \"demo\"; IMPLEMENTATION impl { TASK { UINT32 [0..0xFFFF] STACKSIZE = 256; }; }; CPU c { OS os { STATUS = STANDARD; };\nTASK T1 { PRIORITY = 1; AUTOSTART = TRUE { APPMODE = OSDEFAULTAPPMODE; };\nSTACKSIZE = 512; } : \"main\"; };";

/// Whether these are the attributes of the task.
fn are_attrs_of_the_task(attrs: &[Attr]) -> bool {
    match attrs {
        [priority, autostart, stack_size] => {
            is_attr(priority, b"PRIORITY", 2)
                && matches!(priority.value, Value::Numeric(Sign::Bare, 1))
                && is_attr(autostart, b"AUTOSTART", 2)
                && is_word(&autostart.value, b"TRUE")
                && is_attr(stack_size, b"STACKSIZE", 3)
                && are_attrs_of_the_start(autostart.attrs.as_slice())
        }
        _ => false,
    }
}

/// Whether these are the attributes between the braces of AUTOSTART.
fn are_attrs_of_the_start(attrs: &[Attr]) -> bool {
    match attrs {
        [mode] => {
            is_attr(mode, b"APPMODE", 2)
                && is_word(&mode.value, b"OSDEFAULTAPPMODE")
                && mode.attrs.as_slice().is_empty()
        }
        _ => false,
    }
}

fn are_objects_of_the_file(objects: &[Object]) -> bool {
    match objects {
        [os, task] => {
            is_object(os, b"OS", b"os", 1)
                && is_object(task, b"TASK", b"T1", 2)
                && are_attrs_of_the_task(task.attrs.as_slice())
        }
        _ => false,
    }
}

fn is_tree_of_the_file(tree: &Tree) -> bool {
    tree.line == 1 && are_objects_of_the_file(tree.objects.as_slice())
}

/// Whether these are the tokens of the file, by their tree.
fn are_tokens_of_the_file(alloc: Global, tokens: &Tokens<'_>) -> bool {
    match parse(alloc, tokens) {
        Ok(tree) => is_tree_of_the_file(&tree),
        Err(_) => false,
    }
}

fn has_tree_of_the_file(alloc: Global, text: &[u8]) -> bool {
    match tokens(text) {
        Ok(tokens) => are_tokens_of_the_file(alloc, &tokens),
        Err(_) => false,
    }
}

#[test]
fn tree_of_a_file(rt: HostRuntime) {
    assert!(rt; has_tree_of_the_file(rt.alloc(), FILE));
    one_answer();
}
