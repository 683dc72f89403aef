//! A drawing as one page of HTML, which holds the data of the run and a script that draws them.
use crate::escape::push_escaped;
use crate::members::push_members;
use crate::page::{body, data_end, head, panels, tail, title_end};
use crate::script::script;
use crate::style::style;
use crate::subject::Subject;
use lab_draw::Row;
use lab_writer::Writer;
use std::alloc::{AllocError, Global};

// Appends what stands before the data.
fn push_front(page: &mut Writer, name: &str) {
    page.push_str(head());
    push_escaped(page, name);
    page.push_str(title_end());
    page.push_str(style());
    page.push_str(body());
    push_escaped(page, name);
    page.push_str(panels());
}

// Appends what stands behind the data.
fn push_back(page: &mut Writer) {
    page.push_str(data_end());
    page.push_str(script());
    page.push_str(tail());
}

/// A drawing as a page of HTML that needs no server and no network: the data of the run, and a script that draws what is in
/// view of them.
///
/// # Errors
///
/// `AllocError` where there is no room for it.
pub fn html(alloc: Global, subject: &Subject, rows: &[Row]) -> Result<Vec<u8>, AllocError> {
    let mut page = Writer::new(alloc);
    push_front(&mut page, subject.name());
    page.push('{');
    push_members(&mut page, subject, rows);
    push_back(&mut page);
    page.into_bytes()
}
