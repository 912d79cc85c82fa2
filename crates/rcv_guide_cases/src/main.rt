// Puts each case of data/ through the top call over memory, and calls whose source or sink fails; prints what differs.
#![tactic(auto)]

mod calls;
mod trial;

use std::{fs, io};

fn main(rt: HostRuntime) -> io::Result<()> {
    let names = case_files(&rt)?;
    if names.len() == 0 {
        return println!(rt; "no case was found");
    }
    for name in names.iter() {
        trial::try_case(&rt, name.as_str())?;
    }
    calls::try_calls(&rt)?;
    println!(rt; "each case was tried")
}

// The names of the files that hold a case, ascending.
fn case_files(rt: &HostRuntime) -> io::Result<Vec<String>> {
    let mut names = Vec::new(rt.alloc());
    for entry in fs::read_dir(rt, ".")? {
        let entry = entry?;
        if entry.file_name().ends_with(".case") {
            names.push(String::from_str(rt.alloc(), entry.file_name())?)?;
        }
    }
    names.sort()?;
    Ok(names)
}
