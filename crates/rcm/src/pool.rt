use crate::reading::Reading;
use stamps::Tray;

// The pool is a tray of the library's, and what prints about it takes both: a wrapper would only hand on.

fn tell_pool(rt: &impl Print, pool: &Tray<'_, Reading>) -> anyhow::Result<()> {
    let free = pool.free();
    println!(rt; "  in the pool, with {free} places free:")?;
    for (place, reading) in pool.as_slice().iter().enumerate() {
        println!(rt; "    {place}: {reading}")?;
    }
    Ok(())
}

fn post(rt: &impl Print, pool: &mut Tray<'_, Reading>, reading: Reading) -> anyhow::Result<()> {
    match pool.push(reading) {
        Ok(()) => println!(rt; "posted {reading}")?,
        Err(fault) => {
            let number = fault.number();
            println!(rt; "not posted, refused with {number}: {reading}")?;
        }
    }
    tell_pool(rt, pool)
}

fn take(rt: &impl Print, pool: &mut Tray<'_, Reading>, place: usize) -> anyhow::Result<()> {
    match pool.take_out(place) {
        Ok(reading) => println!(rt; "taken out at place {place}: {reading}")?,
        Err(fault) => {
            let number = fault.number();
            println!(rt; "nothing taken out at place {place}, refused with {number}")?;
        }
    }
    tell_pool(rt, pool)
}

/// Three readings go into a pool of three places; one is taken out of the middle, and its place serves again.
pub(crate) fn play_pool(
    rt: &impl Print,
    first: Reading,
    second: Reading,
    third: Reading,
) -> anyhow::Result<()> {
    let mut places = [first; 3];
    let mut pool = Tray::new(&mut places);
    tell_pool(rt, &pool)?;
    post(rt, &mut pool, first)?;
    post(rt, &mut pool, second)?;
    post(rt, &mut pool, third)?;
    let upper = pool.concerning(0);
    println!(rt; "{upper} of them concern party 0")?;
    post(rt, &mut pool, second)?;
    take(rt, &mut pool, 1)?;
    take(rt, &mut pool, 2)?;
    post(rt, &mut pool, second)
}
