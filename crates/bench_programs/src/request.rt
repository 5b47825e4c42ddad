// What the words of the process ask for.

use std::{env, io};

/// What is done.
#[derive(Clone, Copy)]
pub enum Work {
    Each,
    Crc,
    CrcBits,
    Commits,
    Station,
    Sections,
    Opens,
    Session,
}

/// What is done, and the numbers with which.
#[derive(Clone, Copy)]
pub struct Request {
    pub work: Work,
    pub numbers: [u32; 3],
}

/// The work of the first word. Any other word is `each`.
fn work_of(word: &str) -> Work {
    match word {
        "crc" => Work::Crc,
        "crc-bits" => Work::CrcBits,
        "commits" => Work::Commits,
        "station" => Work::Station,
        "opens" => Work::Opens,
        "session" => Work::Session,
        _ => Work::Each,
    }
}

/// The words of the process; a number that is missing is 0.
pub fn read_request(rt: &HostRuntime) -> io::Result<Request> {
    let mut request = Request {
        work: Work::Each,
        numbers: [0; 3],
    };
    let mut taken = 0;
    for (place, word) in env::args(rt)?.enumerate() {
        match (place, request.work) {
            (0, _) => {}
            (1, _) => request.work = work_of(word.as_str()),
            (2, Work::Station) => {
                if word.as_str() == "sections" {
                    request.work = Work::Sections;
                }
            }
            _ => {
                if taken < 3 {
                    request.numbers[taken] = word.parse().unwrap_or(0);
                    taken += 1;
                }
            }
        }
    }
    Ok(request)
}
