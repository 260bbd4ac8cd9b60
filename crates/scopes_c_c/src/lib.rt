// The exports of scopes_c, for programs in other languages: each calls the library's function of the same name and states its clauses.
#![tactic(auto)]

ghost use Rattle.scopes_c.specs.Lists.{left_tree, Walked};
ghost use Rattle.rows.specs.TreeRows.{Listed};

#[unsafe(no_mangle)]
pub extern "C" fn scopes_replay(s: &[u8], out: &mut [u32]) -> usize
    ensures { Walked s.now out.old result out.new }
{
    scopes_c::scopes_replay(s, out)
}

#[unsafe(no_mangle)]
pub extern "C" fn scopes_walk(s: &[u8], out: &mut [u32]) -> usize
    ensures { Walked s.now out.old result out.new }
{
    scopes_c::scopes_walk(s, out)
}

#[unsafe(no_mangle)]
pub extern "C" fn scopes_rows(s: &[u8], out: &mut [u64]) -> usize
    ensures { Listed (left_tree s.now).entries out.old result out.new }
{
    scopes_c::scopes_rows(s, out)
}
