//! Requests of the workbench.
use lab_request::{CommandEnd, Commands, WorkbenchCommand, answer_body};
use mx_io::{Memory, MemoryShelf, Shelf};
use std::alloc::{AllocError, Global};
use std::test::Fail;

/// What it prints are the words that it was given, and as errors the file of interrupts, or else the plan file. Its status is 3.
struct Echo;

// What a file holds; nothing if there is none.
fn held(alloc: Global, files: &mut MemoryShelf, name: &str) -> Vec<u8> {
    match files.read(alloc, name, 64) {
        Ok(bytes) => bytes,
        Err(_) => Vec::new(alloc),
    }
}

// The words, a space behind each.
fn spaced(alloc: Global, words: &[String]) -> Result<Vec<u8>, AllocError> {
    let mut text = Vec::new(alloc);
    for word in words {
        text.extend_from_slice(word.as_bytes())?;
        text.push(b' ')?;
    }
    Ok(text)
}

impl Commands for Echo {
    ghost ends = { λ _ _ _ _ _ _. Unit {0} };

    fn run(
        &self,
        alloc: Global,
        _command: WorkbenchCommand,
        words: &[String],
        mut files: MemoryShelf,
    ) -> Result<CommandEnd, Memory> {
        let Ok(output) = spaced(alloc, words) else {
            return Err(Memory);
        };
        let requests = held(alloc, &mut files, ".interrupts");
        let errors = if requests.is_empty() {
            held(alloc, &mut files, ".plans")
        } else {
            requests
        };
        Ok(CommandEnd {
            status: 3,
            output,
            errors,
        })
    }
}

// The name of a command, a body, and the answer to it.
#[rattlefmt::skip]
static RUN: [(&str, &str, &str); 9] = [
    ("run", "{\"interrupts\": [2, 30], \"budget\": 7, \"source\": \"halt\", \"name\": \"a.s\"}",
        "{\"command\":\"run\",\"status\":3,\"errors\":\"2\\n30\\n\",\"text\":\"run a.s --interrupts .interrupts --budget 7 \"}\n"),
    ("check", "{\"source\": \"\"}", "{\"command\":\"check\",\"status\":3,\"text\":\"check source --as json --all \"}\n"),
    ("draw", "{\"source\": \"\", \"as\": \"svg\", \"cycles\": 9}",
        "{\"command\":\"draw\",\"status\":3,\"text\":\"draw source --cycles 9 --as svg \"}\n"),
    ("draw", "{\"source\": \"\", \"input\": []}",
        "{\"command\":\"draw\",\"status\":3,\"text\":\"draw source --input .input --as json \"}\n"),
    ("blocks", "{\"source\": \"\"}", "{\"command\":\"blocks\",\"status\":3,\"text\":\"blocks source --as json \"}\n"),
    ("plans", "{\"source\": \"\", \"budget\": 7, \"plans\": \"0 / -\"}",
        "{\"command\":\"plans\",\"status\":3,\"errors\":\"0 / -\",\"text\":\"plans source .plans --budget 7 \"}\n"),
    ("plans", "{\"source\": \"\"}", "{\"command\":\"plans\",\"status\":3,\"text\":\"plans source --print \"}\n"),
    ("caches", "{\"source\": \"\", \"penalty\": 3, \"line\": 8, \"plans\": \"/\"}",
        "{\"command\":\"caches\",\"status\":3,\"errors\":\"/\",\"text\":\"caches source --line 8 --penalty 3 --plans .plans --as json \"}\n"),
    ("interrupts", "{\"source\": \"\", \"to\": 9, \"step\": 2}",
        "{\"command\":\"interrupts\",\"status\":3,\"text\":\"interrupts source --to 9 --step 2 --as json \"}\n"),
];

// The name of a command, a body, the field that is refused, and what is said of it.
#[rattlefmt::skip]
static REFUSED: [(&str, &str, &str, &str); 11] = [
    ("run", "{\"source\": \"\", \"budget\": 0}", "budget", "no number from 1 to 100000000"),
    ("run", "{\"source\": \"\", \"trace\": true}", "trace", "no number from 0 to 10000"),
    ("check", "{\"source\": \"\", \"budget\": 1}", "budget", "no field of check"),
    ("explain", "{\"budget\": 1}", "source", "left out"),
    ("profile", "{\"source\": \"\", \"input\": [256]}", "input", "no string, and no list of numbers from 0 to 255"),
    ("compare", "{\"source\": \"\", \"interrupts\": [5, 5]}", "interrupts",
        "no list of at most 65536 ascending numbers from 0 to 4294967295"),
    ("draw", "{\"source\": \"\", \"as\": \"png\"}", "as", "none of json, text, svg, html, kanata, vcd"),
    ("check", "{\"source\": \"\", \"\\n\": 1}", "\\n", "no field of check"),
    ("draw", "{\"source\": \"\", \"plans\": 1}", "plans", "no string"),
    ("caches", "{\"source\": \"\", \"line\": 65}", "line", "no number from 1 to 64"),
    ("interrupts", "{\"source\": \"\", \"interrupts\": []}", "interrupts", "no field of interrupts"),
];

// A body that is no request, and the answer to it.
static NONE: [(&str, &str); 2] = [
    ("[1]", "{\"error\":\"no JSON object\"}\n"),
    ("{\"source\": halt}", "{\"error\":\"no JSON\"}\n"),
];

// Whether the answer to a body is this document.
fn is_answered(alloc: Global, name: &str, body: &str, wanted: &str) -> Result<bool, Fail> {
    let command = WorkbenchCommand::named(name).unwrap_or(WorkbenchCommand::Run);
    let answer = answer_body(alloc, &Echo, command, body.as_bytes())?;
    Ok(answer.document.as_slice() == wanted.as_bytes())
}

// Whether a field is refused so.
fn is_refused(
    alloc: Global,
    name: &str,
    body: &str,
    field: &str,
    fault: &str,
) -> Result<bool, Fail> {
    let wanted = format!(in alloc; "{{\"error\":\"{field}: {fault}\",\"field\":\"{field}\"}}\n")?;
    is_answered(alloc, name, body, wanted.as_str())
}

#[test]
fn requests_are_run(rt: HostRuntime) -> Result<(), Fail> {
    for (name, body, wanted) in &RUN {
        assert!(rt; is_answered(rt.alloc(), name, body, wanted)?);
    }
    Ok(())
}

#[test]
fn a_field_is_refused(rt: HostRuntime) -> Result<(), Fail> {
    for (name, body, field, fault) in &REFUSED {
        assert!(rt; is_refused(rt.alloc(), name, body, field, fault)?);
    }
    Ok(())
}

#[test]
fn other_bodies_are_no_requests(rt: HostRuntime) -> Result<(), Fail> {
    for (body, wanted) in &NONE {
        assert!(rt; is_answered(rt.alloc(), "run", body, wanted)?);
    }
    Ok(())
}
