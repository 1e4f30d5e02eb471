// The faults of texts read as plans.
use plan_json::read_plan;
use std::alloc::{AllocError, Global};
use std::process::Abort;

// Texts that are not plans, with their faults.
const OTHERS: [(&str, &str); 4] = [
    ("{", "not JSON"),
    ("[]", ": kind"),
    (
        "{'plan':1,'edition':'E1','dpi':1200,'page':[8,2]}",
        "/pages: missing",
    ),
    (
        "{'plan':1,'edition':'E1','dpi':1200,'page':[8,2],'pages':[{'name':'w','inks':'K','layers':[]}],\
'sections':[{'name':'A','pages':['w','w']}]}",
        "/sites: missing",
    ),
];

// Returns a text with each `'` replaced by `"`.
pub(crate) fn quoted<R: Abort + AllocGlobal>(rt: &R, text: &str) -> String {
    let mut out = String::new(rt.alloc());
    for c in text.chars() {
        let quoted = if c == '\'' { '"' } else { c };
        out.push(quoted).expect(rt, "memory");
    }
    out
}

// Returns the fault of a text, or `ok`.
fn fault_of(alloc: Global, text: &str) -> Result<String, AllocError> {
    match read_plan(alloc, text.as_bytes()) {
        Ok(_plan) => String::from_str(alloc, "ok"),
        Err(fault) => format!(in alloc; "{fault}"),
    }
}

// Returns whether a text, in which `'` stands for `"`, has this fault.
fn has_fault<R: Abort + AllocGlobal>(rt: &R, text: &str, wanted: &str) -> bool {
    let text = quoted(rt, text);
    fault_of(rt.alloc(), text.as_str())
        .expect(rt, "memory")
        .as_str()
        == wanted
}

// Returns a sample with the first occurrence of `old` replaced.
fn changed<R: Abort + AllocGlobal>(rt: &R, sample: &str, old: &str, new: &str) -> String {
    let (front, back) = sample.split_once(old).expect(rt, "not in the sample");
    format!(in rt.alloc(); "{front}{new}{back}").expect(rt, "memory")
}

// Splits a row into its three parts.
fn parts(row: &str) -> Option<(&str, &str, &str)> {
    let (old, rest) = row.split_once(" | ")?;
    let (new, fault) = rest.split_once(" | ")?;
    Some((old, new, fault))
}

// Returns whether the change of a row has the row's fault. Lines that begin with `#` are comments.
fn holds<R: Abort + AllocGlobal>(rt: &R, sample: &str, row: &str) -> bool {
    match parts(row) {
        Some((old, new, wanted)) => has_fault(rt, changed(rt, sample, old, new).as_str(), wanted),
        None => row.starts_with('#'),
    }
}

// Checks each row of a table, one per line.
pub(crate) fn check_changes<R: Abort + AllocGlobal>(rt: &R, sample: &str, rows: &str) {
    for row in rows.split('\n') {
        assert!(rt; holds(rt, sample, row), "{row}");
    }
}

#[test]
fn other_texts_have_their_faults(rt: HostRuntime) {
    for (text, wanted) in &OTHERS {
        assert!(rt; has_fault(&rt, text, wanted), "{wanted}");
    }
}
