// The loops over the bytes of so many samples.
ghost use Rattle.std.specs.Prelude.{◌≡◌, ◌*◌, ◌%◌, ◌<◌, length};
ghost use Rattle.planes.specs.Planes.{plane, planes, samples_of};

// Samples up to which one pass is quicker than four. Of more, source and planes together outgrow the nearest cache, and four passes are.
const FEW: usize = 4096;

// Byte `significance` of each sample. By words, since the compiler then takes sixteen samples at a time: 0.4 ns a sample, and 1.3 ns where single bytes are copied.
fn fill(dest: &mut [u8], source: &[u8], significance: u32)
    requires bytes { length source.now ≡ 4 * length dest.old }
    requires significance { significance < 4 }
    ensures { dest.new ≡ plane source.now (length dest.old) significance }
{
    for (k, sample) in source.as_chunks::<4>().0.iter().enumerate() {
        dest[k] = ((u32::from_le_bytes(*sample) >> (8 * significance)) % 256) as u8;
    }
}

// The four planes in one pass, four samples at a time, their bytes next to each other: the compiler makes one store of them, with no test first that the planes are apart.
fn fill_all(source: &[u8], first: &mut [u8], second: &mut [u8], third: &mut [u8], fourth: &mut [u8])
    requires first { length source.now ≡ 4 * length first.old }
    requires fours { length first.old % 4 ≡ 0 }
    requires second { length second.old ≡ length first.old }
    requires third { length third.old ≡ length first.old }
    requires fourth { length fourth.old ≡ length first.old }
    ensures first { first.new ≡ plane source.now (length first.old) 0 }
    ensures second { second.new ≡ plane source.now (length first.old) 1 }
    ensures third { third.new ≡ plane source.now (length first.old) 2 }
    ensures fourth { fourth.new ≡ plane source.now (length first.old) 3 }
{
    let words = source.as_chunks::<4>().0;
    for j in 0..words.len() / 4 {
        let a = u32::from_le_bytes(words[4 * j]);
        let b = u32::from_le_bytes(words[4 * j + 1]);
        let c = u32::from_le_bytes(words[4 * j + 2]);
        let d = u32::from_le_bytes(words[4 * j + 3]);
        first[4 * j] = (a % 256) as u8;
        first[4 * j + 1] = (b % 256) as u8;
        first[4 * j + 2] = (c % 256) as u8;
        first[4 * j + 3] = (d % 256) as u8;
        second[4 * j] = ((a >> 8) % 256) as u8;
        second[4 * j + 1] = ((b >> 8) % 256) as u8;
        second[4 * j + 2] = ((c >> 8) % 256) as u8;
        second[4 * j + 3] = ((d >> 8) % 256) as u8;
        third[4 * j] = ((a >> 16) % 256) as u8;
        third[4 * j + 1] = ((b >> 16) % 256) as u8;
        third[4 * j + 2] = ((c >> 16) % 256) as u8;
        third[4 * j + 3] = ((d >> 16) % 256) as u8;
        fourth[4 * j] = (a >> 24) as u8;
        fourth[4 * j + 1] = (b >> 24) as u8;
        fourth[4 * j + 2] = (c >> 24) as u8;
        fourth[4 * j + 3] = (d >> 24) as u8;
    }
}

// So many samples into their four planes.
pub fn spread(source: &[u8], count: usize, dest: &mut [u8])
    requires source { length source.now ≡ 4 * count }
    requires dest { length dest.old ≡ 4 * count }
    ensures { dest.new ≡ planes count source.now }
{
    let (first, rest) = dest.split_at_mut(count);
    let (second, rest) = rest.split_at_mut(count);
    let (third, fourth) = rest.split_at_mut(count);
    // twelve channels have whole fours
    if count <= FEW && count % 4 == 0 {
        return fill_all(source, first, second, third, fourth);
    }
    fill(first, source, 0);
    fill(second, source, 1);
    fill(third, source, 2);
    fill(fourth, source, 3);
}

// So many samples out of their four planes. By index, since nothing is said of what a slice lent as chunks (`as_chunks_mut`) is afterwards.
pub fn gather(source: &[u8], count: usize, dest: &mut [u8])
    requires source { length source.now ≡ 4 * count }
    requires dest { length dest.old ≡ 4 * count }
    ensures { dest.new ≡ samples_of count source.now }
{
    for k in 0..count {
        dest[4 * k] = source[k];
        dest[4 * k + 1] = source[count + k];
        dest[4 * k + 2] = source[2 * count + k];
        dest[4 * k + 3] = source[3 * count + k];
    }
}
