//! Rows of node_pool: one region, which goes back to its last mark and ends.
ghost use Rattle.std.specs.Prelude.{IfOk};
ghost use Rattle.rows.specs.Yards.{IsReady};

use node_pool::{Mark, Pool, PoolFault, Region};
use row_values::argument::{list, number, text};
use row_values::fault::{Row, RowFault};
use row_values::shown::Shown;
use serde_json::Value;
use std::alloc::Global;

/// A pool of characters, with its open region and the last mark of it.
#[derive(Drop)]
pub struct Yard {
    pool: Pool<char>,
    region: Region,
    mark: Mark,
}

pub fn answer(out: &mut Shown, call: &str, argument: &Value) -> Row<()> {
    if call != "of" {
        return Err(RowFault::NoCall);
    }
    let mut yard = open(Pool::new(out.alloc()))?;
    out.open();
    for item in list(argument)? {
        yard = step(out, yard, item)?;
    }
    out.close();
    Ok(())
}

/// Opens a region of a pool and marks its begin.
fn open(pool: Pool<char>) -> Row<Yard>
    ensures { IfOk result (λ yard. IsReady yard) }
{
    let mut pool = pool;
    match pool.open_region() {
        Ok(region) => {
            let mark = pool.mark(&region);
            Ok(Yard { pool, region, mark })
        }
        Err(_) => Err(RowFault::Memory),
    }
}

/// Does what an item says, and shows what comes of it.
fn step(out: &mut Shown, yard: Yard, item: &Value) -> Row<Yard>
    requires { IsReady yard }
    ensures { IfOk result (λ yard. IsReady yard) }
{
    if item.is_u64() {
        return Ok(reserve(out, yard, number(item)?)?);
    }
    match text(item)? {
        "mark" => Ok(set_mark(yard)),
        "back" => Ok(go_back(out, yard)),
        "end" => Ok(end(out, yard)?),
        put => {
            let mut chars = put.chars();
            Ok(put_one(out, yard, chars.next().ok_or(RowFault::BadArgument)?)?)
        }
    }
}

/// Puts a character, and shows its id and what lives under it.
fn put_one(out: &mut Shown, yard: Yard, letter: char) -> Row<Yard>
    requires { IsReady yard }
    ensures { IfOk result (λ yard. IsReady yard) }
{
    let Yard {
        mut pool,
        region,
        mark,
    } = yard;
    match pool.put(&region, letter) {
        Ok(id) => {
            out.open();
            out.number(u64::from(id.number));
            out.letter(*pool.get(id));
            out.close();
            Ok(Yard { pool, region, mark })
        }
        Err(PoolFault::Full) => Err(RowFault::NotShown),
        Err(PoolFault::Memory) => Err(RowFault::Memory),
    }
}

/// Makes room for some puts, and shows that there is.
fn reserve(out: &mut Shown, yard: Yard, n: u32) -> Row<Yard>
    requires { IsReady yard }
    ensures { IfOk result (λ yard. IsReady yard) }
{
    let Yard {
        mut pool,
        region,
        mark,
    } = yard;
    match pool.reserve(n) {
        Ok(()) => {
            out.flag(true);
            Ok(Yard { pool, region, mark })
        }
        Err(_) => Err(RowFault::Memory),
    }
}

/// Marks this moment of the region.
fn set_mark(yard: Yard) -> Yard
    requires { IsReady yard }
    ensures { IsReady result }
{
    let Yard {
        pool,
        region,
        mark: _,
    } = yard;
    let mark = pool.mark(&region);
    Yard { pool, region, mark }
}

/// Goes back to the mark, and shows how many live.
fn go_back(out: &mut Shown, yard: Yard) -> Yard
    requires { IsReady yard }
    ensures { IsReady result }
{
    let Yard {
        mut pool,
        region,
        mark,
    } = yard;
    pool.back_to(&region, mark);
    out.number(u64::from(pool.live()));
    Yard { pool, region, mark }
}

/// Ends the region, shows how many live, and opens another.
fn end(out: &mut Shown, yard: Yard) -> Row<Yard>
    requires { IsReady yard }
    ensures { IfOk result (λ yard. IsReady yard) }
{
    let Yard {
        mut pool,
        region,
        mark: _,
    } = yard;
    pool.release(region);
    out.number(u64::from(pool.live()));
    Ok(open(pool)?)
}
