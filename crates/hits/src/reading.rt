// A hit's payload read: what stands at its front, and then one result a call. The reader's state is a cursor, which a
// call moves on by one result.
ghost use Rattle.std.specs.Prelude.{◌+◌, ◌^◌, ◌<◌, ◌≡◌, length, IfSome};
ghost use Rattle.hits.specs.Reading.{head_of, beginning, lengths_in, stays, zero_at, record_of, told_of, next_of};

use answer::Refusal;

// How many bytes the last part of a payload has, the mark of the station that answers.
pub const MARK_SIZE: usize = 16;

// How many bytes stand before the results.
pub const HEAD_SIZE: usize = 11;

// The least payload of a hit.
pub const SMALLEST: usize = HEAD_SIZE + MARK_SIZE;

// Where a reader is: the place of the next result in the payload, and how many of the stated number are left.
#[repr(C)]
#[derive(Clone, Copy)]
pub struct HitCursor {
    pub at: usize,
    pub left: u8,
}

// A result: index and size of a file, and where its name and its extension stand in the payload.
#[repr(C)]
#[derive(Clone, Copy)]
pub struct HitRecord {
    pub index: u32,
    pub size: u32,
    pub nameat: usize,
    pub namelen: usize,
    pub extat: usize,
    pub extlen: usize,
}

// Whether there is a whole result, and how long its name and its extension are, 0 where there is none.
#[derive(Clone, Copy)]
pub struct Lengths {
    pub whole: bool,
    pub namelen: usize,
    pub extlen: usize,
}

impl From<Option<HitRecord>> for Lengths {
    ghost from_gives = { λ read lengths. lengths ≡ lengths_in read };

    fn from(read: Option<HitRecord>) -> Lengths {
        match read {
            Some(record) => Lengths {
                whole: true,
                namelen: record.namelen,
                extlen: record.extlen,
            },
            None => Lengths {
                whole: false,
                namelen: 0,
                extlen: 0,
            },
        }
    }
}

// What a call of the reader gives a caller in C: its answer, whether there is a result, the result, which is zeros where
// there is none, and the cursor for the next call.
#[repr(C)]
#[derive(Clone, Copy)]
pub struct HitNext {
    pub answer: u8,
    pub found: bool,
    pub result: HitRecord,
    pub cursor: HitCursor,
}

// What stands at the front of a payload, where the mark stands, and the cursor for the first result.
#[derive(Clone, Copy)]
pub struct Front {
    pub results: u8,
    pub port: u16,
    pub address: [u8; 4],
    pub speed: u32,
    pub markat: usize,
    pub cursor: HitCursor,
}

// The same for a caller in C, with the answer; zeros where the payload is refused.
#[repr(C)]
#[derive(Clone, Copy)]
pub struct HitHead {
    pub answer: u8,
    pub results: u8,
    pub port: u16,
    pub address: [u8; 4],
    pub speed: u32,
    pub markat: usize,
    pub cursor: HitCursor,
}

impl From<Result<Front, Refusal>> for HitHead {
    ghost from_gives = { λ front head. head ≡ head_of front };

    fn from(front: Result<Front, Refusal>) -> HitHead {
        match front {
            Ok(front) => {
                let address = front.address;
                HitHead {
                    answer: 0,
                    results: front.results,
                    port: front.port,
                    address,
                    speed: front.speed,
                    markat: front.markat,
                    cursor: front.cursor,
                }
            }
            Err(refusal) => HitHead {
                answer: u8::from(refusal),
                results: 0,
                port: 0,
                address: [0; 4],
                speed: 0,
                markat: 0,
                cursor: HitCursor { at: 0, left: 0 },
            },
        }
    }
}

// What a caller in C gets where there is no result.
fn without(answer: u8, cursor: HitCursor) -> HitNext
    ensures { result ≡ stays answer cursor }
{
    HitNext {
        answer,
        found: false,
        result: HitRecord {
            index: 0,
            size: 0,
            nameat: 0,
            namelen: 0,
            extat: 0,
            extlen: 0,
        },
        cursor,
    }
}

impl From<(Result<Option<HitRecord>, Refusal>, HitCursor)> for HitNext {
    ghost from_gives = { λ read next. next ≡ told_of read.0 read.1 };

    fn from(read: (Result<Option<HitRecord>, Refusal>, HitCursor)) -> HitNext {
        let (outcome, cursor) = read;
        match outcome {
            Ok(Some(result)) => HitNext {
                answer: 0,
                found: true,
                result,
                cursor,
            },
            Ok(None) => without(0, cursor),
            Err(refusal) => without(u8::from(refusal), cursor),
        }
    }
}

// The front of a payload: BadPayload for one that is shorter than a hit's.
pub fn begin(payload: &[u8]) -> Result<Front, Refusal>
    ensures { head_of result ≡ beginning payload.now }
{
    if payload.len() < SMALLEST {
        return Err(Refusal::BadPayload);
    }
    match payload {
        [results, p0, p1, a0, a1, a2, a3, s0, s1, s2, s3, ..] => Ok(Front {
            results: *results,
            port: u16::from_le_bytes([*p0, *p1]),
            address: [*a0, *a1, *a2, *a3],
            speed: u32::from_le_bytes([*s0, *s1, *s2, *s3]),
            markat: payload.len() - MARK_SIZE,
            cursor: HitCursor {
                at: HEAD_SIZE,
                left: *results,
            },
        }),
        _ => Err(Refusal::BadPayload),
    }
}

// The place of the first zero byte.
fn zero_at(bytes: &[u8]) -> Option<usize>
    ensures value { result ≡ zero_at bytes.now }
    ensures inside { IfSome result (λ i. i < length bytes.now) }
{
    // `position` takes 1.3 times as long
    for (i, b) in bytes.iter().enumerate() {
        if *b == 0 {
            return Some(i);
        }
    }
    None
}

// The result that some bytes begin with, which stand at a place of the payload; none where its name or its extension is
// not ended.
fn record_at(at: usize, bytes: &[u8]) -> Option<HitRecord>
    requires { at + length bytes.now + 9 < 2 ^ 64 }
    ensures { result ≡ record_of at bytes.now }
{
    let (numbers, names) = bytes.split_first_chunk::<8>()?;
    let [i0, i1, i2, i3, s0, s1, s2, s3] = *numbers;
    let namelen = zero_at(names)?;
    let (_, behind) = names[namelen..].split_first()?;
    let extlen = zero_at(behind)?;
    Some(HitRecord {
        index: u32::from_le_bytes([i0, i1, i2, i3]),
        size: u32::from_le_bytes([s0, s1, s2, s3]),
        nameat: at + 8,
        namelen,
        extat: at + 9 + namelen,
        extlen,
    })
}

impl HitCursor {
    // Moves on behind the next result, if there is one, and gives it.
    fn step(&mut self, payload: &[u8]) -> Result<Option<HitRecord>, Refusal>
        ensures { told_of result self.new ≡ next_of self.old payload.now }
    {
        if payload.len() < SMALLEST {
            return Err(Refusal::BadPayload);
        }
        if self.left == 0 {
            return Ok(None);
        }
        let end = payload.len() - MARK_SIZE;
        if end < self.at {
            return Err(Refusal::BadPayload);
        }
        let Some(record) = record_at(self.at, &payload[self.at..end]) else {
            return Err(Refusal::BadPayload);
        };
        self.at = record.extat + record.extlen + 1;
        self.left -= 1;
        Ok(Some(record))
    }

    // The next result, and the cursor moved on behind it. BadPayload for a payload that is shorter than a hit's; no
    // result where none of the stated number is left; BadPayload where the next does not end before the mark: the
    // cursor stays then. Any cursor is taken, from this payload or not.
    pub fn next(self, payload: &[u8]) -> (Result<Option<HitRecord>, Refusal>, HitCursor)
        ensures { told_of result.0 result.1 ≡ next_of self payload.now }
    {
        let mut cursor = self;
        let read = cursor.step(payload);
        (read, cursor)
    }

    // What `next` gives, as a caller in C is told it, made where each outcome arises: of a `Result` and a cursor handed
    // on together it takes half as long again.
    pub fn told(self, payload: &[u8]) -> HitNext
        ensures { result ≡ next_of self payload.now }
    {
        let HitCursor { at, left } = self;
        if payload.len() < SMALLEST {
            return HitNext::from((Err(Refusal::BadPayload), HitCursor { at, left }));
        }
        if left == 0 {
            return HitNext::from((Ok(None), HitCursor { at, left }));
        }
        let end = payload.len() - MARK_SIZE;
        if end < at {
            return HitNext::from((Err(Refusal::BadPayload), HitCursor { at, left }));
        }
        let Some(result) = record_at(at, &payload[at..end]) else {
            return HitNext::from((Err(Refusal::BadPayload), HitCursor { at, left }));
        };
        HitNext {
            answer: 0,
            found: true,
            result,
            cursor: HitCursor {
                at: result.extat + result.extlen + 1,
                left: left - 1,
            },
        }
    }
}
