// Files kept as a list of names and contents.
ghost use Rattle.std.specs.Prelude.{◌≡◌, ◌<◌, ◌-◌, [], ◌++◌, length, min, IfSome, IfNone, OnOk, OnErr, IsErrOf, IsNone, string_bytes};
ghost use Rattle.wcc_base.specs.Outside.{file_of, bytes_of, put_file, Reads};
ghost use Rattle.base_stores.specs.FileList.{told, IsAbsent, IsPlace};

use std::alloc::{AllocError, Global};
use wcc_base::Fault;

// The place of the first file of that name.
pub(crate) fn place(files: &[(String, Vec<u8>)], name: &str) -> Option<usize>
    ensures none { IfNone result (IsAbsent name.now (told string_bytes (λ v. v.items) files.now)) }
    ensures found { IfSome result (IsPlace string_bytes (λ v. v.items) name.now files.now) }
{
    for (i, file) in files.iter().enumerate() {
        if file.0.as_str() == name {
            return Some(i);
        }
    }
    None
}

// Copies bytes from that place on into the buffer, and says how many: as many as there are, as fit, and as may go.
pub(crate) fn copy_from(bytes: &[u8], at: u64, buf: &mut [u8], most: usize) -> usize
    requires { 0 < most }
    ensures count { result ≡ min (min (length bytes.now - at) (length buf.old)) most }
    ensures read { 0 < length buf.old → Reads bytes.now at result buf.new }
{
    let start = usize::try_from(at).unwrap_or(usize::MAX).min(bytes.len());
    let rest = &bytes[start..];
    let count = rest.len().min(buf.len()).min(most);
    buf[..count].copy_from_slice(&rest[..count]);
    count
}

// Makes the named file empty, new or not.
pub(crate) fn empty_file(
    alloc: Global,
    files: &mut Vec<(String, Vec<u8>)>,
    name: &str,
) -> Result<(), AllocError>
    ensures ok { OnOk result (told string_bytes (λ v. v.items) files.new.items
        ≡ put_file name.now [] (told string_bytes (λ v. v.items) files.old.items)) }
    ensures err { OnErr result (files.new.items ≡ files.old.items) }
{
    match place(files, name) {
        Some(i) => {
            files[i].1.clear();
            Ok(())
        }
        None => {
            let name = String::from_str(alloc, name)?;
            files.push((name, Vec::new(alloc)))?;
            Ok(())
        }
    }
}

// Adds a piece to the named file, which has to be there.
pub(crate) fn add_to(
    files: &mut Vec<(String, Vec<u8>)>,
    name: &str,
    piece: &[u8],
) -> Result<(), Fault>
    ensures ok { OnOk result (told string_bytes (λ v. v.items) files.new.items
        ≡ put_file name.now (bytes_of (told string_bytes (λ v. v.items) files.old.items) name.now ++ piece.now)
        (told string_bytes (λ v. v.items) files.old.items)) }
    ensures err { OnErr result (told string_bytes (λ v. v.items) files.new.items
        ≡ told string_bytes (λ v. v.items) files.old.items) }
    ensures failed { IsErrOf result Fault.Failed → IsNone (file_of (told string_bytes (λ v. v.items) files.old.items) name.now) }
{
    match place(files, name) {
        Some(i) => match files[i].1.extend_from_slice(piece) {
            Ok(()) => Ok(()),
            Err(_) => Err(Fault::Memory),
        },
        None => Err(Fault::Failed),
    }
}
