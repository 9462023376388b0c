// No clause says what a file holds: what was written is read by the next board over the file,
// a gap and all past the end read FF, and each call answers Ok.
use edge_board::{Board, Failed, FileBoard};
use std::fs::File;
use std::rt::Files;
use std::test::Fail;
use std::{env, fs, process};

fn is_written<R: Files<File = File> + Print>(board: &mut FileBoard<'_, R>) -> bool {
    board.blocks() >= 8276
        && board.program(9_000, &[1, 2, 3]) == Ok(())
        && board.blank(9_001) == Ok(())
        && board.erase(0) == Ok(())
        && board.sync() == Ok(())
        && board.send(&[]) == Ok(0)
}

fn has_size<R: Files + Alloc>(rt: &R, name: &str, size: usize) -> bool {
    match fs::read(rt, name) {
        Ok(octets) => octets.len() == size,
        Err(_) => false,
    }
}

fn reads<R: Files<File = File> + Print>(
    board: &mut FileBoard<'_, R>,
    at: u32,
    octets: [u8; 6],
) -> bool {
    let mut piece = [0; 6];
    board.blocks() >= 8276
        && at <= 33_898_490
        && board.read(at, &mut piece) == Ok(())
        && piece == octets
}

// Across the file's end, and at the board's.
fn is_read<R: Files<File = File> + Print>(board: &mut FileBoard<'_, R>) -> bool {
    reads(board, 8_998, [0xff, 0xff, 1, 0, 3, 0xff]) && reads(board, 33_898_490, [0xff; 6])
}

// Each board lets its file go before the next one opens it.
fn writes<R: Files<File = File> + Print>(rt: &R, name: &str) -> bool {
    let mut board = FileBoard::new(rt, name);
    is_written(&mut board)
}

fn gives_back<R: Files<File = File> + Print>(rt: &R, name: &str) -> bool {
    let mut board = FileBoard::new(rt, name);
    is_read(&mut board)
}

// A board that only reads makes no file.
fn reads_nothing<R: Files<File = File> + Print>(rt: &R, name: &str) -> bool {
    let mut board = FileBoard::new(rt, name);
    board.sync() == Ok(())
        && reads(&mut board, 8_998, [0xff; 6])
        && fs::exists(rt, name).is_ok_and(|is_there| !is_there)
}

// Two boards read one file, and neither writes what the other reads.
fn excludes<R: Files<File = File> + Print>(rt: &R, name: &str) -> bool {
    let (mut one, mut other) = (FileBoard::new(rt, name), FileBoard::new(rt, name));
    is_read(&mut one) && is_read(&mut other) && one.blank(0) == Err(Failed) && is_read(&mut other)
}

fn is_kept<R: Files<File = File> + Print + Alloc>(rt: &R, name: &str) -> bool {
    reads_nothing(rt, name)
        && writes(rt, name)
        && has_size(rt, name, 9_003)
        && gives_back(rt, name)
        && excludes(rt, name)
        && has_size(rt, name, 9_003)
}

#[test]
fn keeps_what_it_wrote(rt: HostRuntime) -> Result<(), Fail> {
    let number = process::id(rt.process());
    let file = format!(in rt.alloc(); "fwload-file-board-{number}.flash")?;
    let path = env::temp_dir(&rt)?.join(rt.alloc(), file.as_str())?;
    let name = path.as_path().as_str();
    assert!(rt; is_kept(&rt, name) && fs::remove_file(&rt, name).is_ok());
    Ok(())
}
