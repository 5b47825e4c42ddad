use crate::{Answer, FileRef, FolderRef, Shot};

fn crosses<T: Send + Sync>() {}

/// Shots and answers are Send and Sync.
pub fn cross_threads() {
    crosses::<FileRef>();
    crosses::<FolderRef>();
    crosses::<Answer>();
    crosses::<Shot>();
}
