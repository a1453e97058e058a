// Bytes that are put together in a value of a fixed size, since a writer does not allocate.
ghost use Rattle.std.specs.Prelude.{◌≡◌, ◌+◌, ◌≤◌, ◌++◌, length};
ghost use Rattle.arrayvec.specs.ArrayVec.{array_vec_len};

use arrayvec::ArrayVec;

// Appends bytes for which there is room.
pub fn append<const N: usize>(to: &mut ArrayVec<u8, N>, bytes: &[u8])
    requires { array_vec_len to.old + length bytes.now ≤ N }
    ensures items { to.new.items ≡ to.old.items ++ bytes.now }
    ensures len { array_vec_len to.new ≡ array_vec_len to.old + length bytes.now }
{
    let _ = to.try_extend_from_slice(bytes);
}
