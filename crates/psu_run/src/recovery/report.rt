//! What a restart would find in an image.
ghost use Rattle.std.specs.Prelude.{◌≡◌, IfOk, OnOk, ◌++◌, [], if◌then◌else◌, codes, decimal, flat_map};
ghost use Rattle.psu_run.specs.Recover.{enables_text, request_text, file_line, report_text_of};

use crate::OutOfMemory;
use crate::memory::append;
use itoa::Buffer;
use psu_lex::Bytes;
use psu_nv::FileKind;
use psu_status::Enables;
use std::alloc::Allocator;

/// What a restart would find in an image.
#[derive(Drop)]
pub struct Report<A: Allocator + Copy> {
    /// The version of the image's format.
    pub version: u16,
    /// The number of the current root.
    pub root: u64,
    /// The cost of the contents, in pages.
    pub pages: u128,
    /// The number of pages that they may cost.
    pub limit: u16,
    /// SRE and ESE, where they are kept.
    pub enables: Option<Enables>,
    /// The status byte of the first service request, if power-on makes one.
    pub request: Option<u8>,
    /// The number of bytes of user data that are kept.
    pub user: usize,
    /// The number of macros that are defined.
    pub macros: usize,
    /// The files, in byte order of their names.
    pub files: Vec<ReportedFile<A>, A>,
    /// Whether the settings at power-on are those of register 0.
    pub recall: bool,
}

/// A file as a report lists it.
#[derive(Drop)]
pub struct ReportedFile<A: Allocator + Copy> {
    pub name: Bytes<A>,
    /// Its type.
    pub kind: FileKind,
    /// The number of its bytes.
    pub size: usize,
}

/// The report as text, a line for each fact.
pub fn report_text<A: Allocator + Copy>(
    alloc: A,
    report: &Report<A>,
) -> Result<Vec<u8, A>, OutOfMemory>
    ensures { IfOk result (λ text. text.items ≡ report_text_of report.now) }
{
    let mut text = Vec::new(alloc);
    put_image(&mut text, report)?;
    put_pages(&mut text, report)?;
    put_enables(&mut text, report.enables)?;
    put_request(&mut text, report.request)?;
    put_power(&mut text, report.recall)?;
    put_count(&mut text, b"user ", report.user)?;
    put_count(&mut text, b"macros ", report.macros)?;
    put_files(&mut text, &report.files)?;
    Ok(text)
}

fn put_image<A: Allocator + Copy>(
    text: &mut Vec<u8, A>,
    report: &Report<A>,
) -> Result<(), OutOfMemory>
    ensures { OnOk result (text.new.items ≡ text.old.items ++ codes "image version " ++ decimal report.now.version ++ codes " root " ++ decimal report.now.root ++ codes "\n") }
{
    let mut version = Buffer::new();
    let mut root = Buffer::new();
    append(text, b"image version ")?;
    append(text, version.format(report.version).as_bytes())?;
    append(text, b" root ")?;
    append(text, root.format(report.root).as_bytes())?;
    append(text, b"\n")?;
    Ok(())
}

fn put_pages<A: Allocator + Copy>(
    text: &mut Vec<u8, A>,
    report: &Report<A>,
) -> Result<(), OutOfMemory>
    ensures { OnOk result (text.new.items ≡ text.old.items ++ codes "pages " ++ decimal report.now.pages ++ codes " of " ++ decimal report.now.limit ++ codes "\n") }
{
    let mut pages = Buffer::new();
    let mut limit = Buffer::new();
    append(text, b"pages ")?;
    append(text, pages.format(report.pages).as_bytes())?;
    append(text, b" of ")?;
    append(text, limit.format(report.limit).as_bytes())?;
    append(text, b"\n")?;
    Ok(())
}

fn put_enables<A: Allocator + Copy>(
    text: &mut Vec<u8, A>,
    enables: Option<Enables>,
) -> Result<(), OutOfMemory>
    ensures { OnOk result (text.new.items ≡ text.old.items ++ codes "enables " ++ enables_text enables ++ codes "\n") }
{
    let Some(Enables { sre, ese }) = enables else {
        append(text, b"enables none\n")?;
        return Ok(());
    };
    let mut first = Buffer::new();
    let mut second = Buffer::new();
    append(text, b"enables ")?;
    append(text, first.format(sre).as_bytes())?;
    append(text, b" ")?;
    append(text, second.format(ese).as_bytes())?;
    append(text, b"\n")?;
    Ok(())
}

fn put_request<A: Allocator + Copy>(
    text: &mut Vec<u8, A>,
    request: Option<u8>,
) -> Result<(), OutOfMemory>
    ensures { OnOk result (text.new.items ≡ text.old.items ++ codes "request " ++ request_text request ++ codes "\n") }
{
    let Some(byte) = request else {
        append(text, b"request none\n")?;
        return Ok(());
    };
    put_count(text, b"request ", usize::from(byte))?;
    Ok(())
}

// Appends the line on the settings at power-on, which is written only where they are those of register 0.
fn put_power<A: Allocator + Copy>(text: &mut Vec<u8, A>, recall: bool) -> Result<(), OutOfMemory>
    ensures { OnOk result (text.new.items ≡ text.old.items ++ (if recall then codes "power RCL0\n" else [])) }
{
    if recall {
        append(text, b"power RCL0\n")?;
    }
    Ok(())
}

fn put_count<A: Allocator + Copy>(
    text: &mut Vec<u8, A>,
    words: &[u8],
    count: usize,
) -> Result<(), OutOfMemory>
    ensures { OnOk result (text.new.items ≡ text.old.items ++ words.now ++ decimal count ++ codes "\n") }
{
    let mut number = Buffer::new();
    append(text, words)?;
    append(text, number.format(count).as_bytes())?;
    append(text, b"\n")?;
    Ok(())
}

fn put_file<A: Allocator + Copy>(
    text: &mut Vec<u8, A>,
    file: &ReportedFile<A>,
) -> Result<(), OutOfMemory>
    ensures { OnOk result (text.new.items ≡ text.old.items ++ file_line file.now) }
{
    let mut size = Buffer::new();
    append(text, b"file ")?;
    append(text, file.name.as_slice())?;
    append(text, b",")?;
    append(text, file.kind.text())?;
    append(text, b",")?;
    append(text, size.format(file.size).as_bytes())?;
    append(text, b"\n")?;
    Ok(())
}

fn put_files<A: Allocator + Copy>(
    text: &mut Vec<u8, A>,
    files: &[ReportedFile<A>],
) -> Result<(), OutOfMemory>
    ensures { OnOk result (text.new.items ≡ text.old.items ++ flat_map file_line files.now) }
{
    for file in files {
        put_file(text, file)?;
    }
    Ok(())
}
