//! Keccak-p[1600, 24]: a round is unrolled plane by plane, so that lanes stay in registers.
ghost use Rattle.std.specs.Prelude.{◌≡◌};
ghost use Rattle.sha3.specs.Keccak.{theta, rho, pi, chi, round, keccak};
ghost use Rattle.sha3.specs.Planes.{flat, plane_of, xor_plane, theta_plane, chi_plane, rot_plane};

use crate::planes::{Lanes, Plane};

/// The round constants.
const RC: [u64; 24] = [
    0x0000000000000001,
    0x0000000000008082,
    0x800000000000808A,
    0x8000000080008000,
    0x000000000000808B,
    0x0000000080000001,
    0x8000000080008081,
    0x8000000000008009,
    0x000000000000008A,
    0x0000000000000088,
    0x0000000080008009,
    0x000000008000000A,
    0x000000008000808B,
    0x800000000000008B,
    0x8000000000008089,
    0x8000000000008003,
    0x8000000000008002,
    0x8000000000000080,
    0x000000000000800A,
    0x800000008000000A,
    0x8000000080008081,
    0x8000000000008080,
    0x0000000080000001,
    0x8000000080008008,
];

pub(crate) fn plane(x0: u64, x1: u64, x2: u64, x3: u64, x4: u64) -> Plane
    ensures { result ≡ plane_of x0 x1 x2 x3 x4 }
{
    Plane { x0, x1, x2, x3, x4 }
}

pub(crate) fn xor(p: Plane, q: Plane) -> Plane
    ensures { result ≡ xor_plane p q }
{
    Plane {
        x0: p.x0 ^ q.x0,
        x1: p.x1 ^ q.x1,
        x2: p.x2 ^ q.x2,
        x3: p.x3 ^ q.x3,
        x4: p.x4 ^ q.x4,
    }
}

/// What theta adds to each plane, from the parities c of the columns.
fn theta_plane(c: Plane) -> Plane
    ensures { result ≡ theta_plane c }
{
    Plane {
        x0: c.x4 ^ c.x1.rotate_left(1),
        x1: c.x0 ^ c.x2.rotate_left(1),
        x2: c.x1 ^ c.x3.rotate_left(1),
        x3: c.x2 ^ c.x4.rotate_left(1),
        x4: c.x3 ^ c.x0.rotate_left(1),
    }
}

fn chi_plane(p: Plane) -> Plane
    ensures { result ≡ chi_plane p }
{
    Plane {
        x0: p.x0 ^ (!p.x1 & p.x2),
        x1: p.x1 ^ (!p.x2 & p.x3),
        x2: p.x2 ^ (!p.x3 & p.x4),
        x3: p.x3 ^ (!p.x4 & p.x0),
        x4: p.x4 ^ (!p.x0 & p.x1),
    }
}

fn rotated(p: Plane, i: u32, j: u32, k: u32, l: u32, m: u32) -> Plane
    ensures { result ≡ rot_plane p i j k l m }
{
    Plane {
        x0: p.x0.rotate_left(i),
        x1: p.x1.rotate_left(j),
        x2: p.x2.rotate_left(k),
        x3: p.x3.rotate_left(l),
        x4: p.x4.rotate_left(m),
    }
}

fn theta_of(a: Lanes) -> Lanes
    ensures { flat result ≡ theta (flat a) }
{
    let d = theta_plane(xor(xor(xor(xor(a.y0, a.y1), a.y2), a.y3), a.y4));
    Lanes {
        y0: xor(a.y0, d),
        y1: xor(a.y1, d),
        y2: xor(a.y2, d),
        y3: xor(a.y3, d),
        y4: xor(a.y4, d),
    }
}

/// Rho and then pi.
fn rho_pi_of(a: Lanes) -> Lanes
    ensures { flat result ≡ pi (rho (flat a)) }
{
    let p = plane(a.y0.x0, a.y1.x1, a.y2.x2, a.y3.x3, a.y4.x4);
    let q = plane(a.y0.x3, a.y1.x4, a.y2.x0, a.y3.x1, a.y4.x2);
    let r = plane(a.y0.x1, a.y1.x2, a.y2.x3, a.y3.x4, a.y4.x0);
    let s = plane(a.y0.x4, a.y1.x0, a.y2.x1, a.y3.x2, a.y4.x3);
    let t = plane(a.y0.x2, a.y1.x3, a.y2.x4, a.y3.x0, a.y4.x1);
    Lanes {
        y0: rotated(p, 0, 44, 43, 21, 14),
        y1: rotated(q, 28, 20, 3, 45, 61),
        y2: rotated(r, 1, 6, 25, 8, 18),
        y3: rotated(s, 27, 36, 10, 15, 56),
        y4: rotated(t, 62, 55, 39, 41, 2),
    }
}

fn chi_of(a: Lanes) -> Lanes
    ensures { flat result ≡ chi (flat a) }
{
    Lanes {
        y0: chi_plane(a.y0),
        y1: chi_plane(a.y1),
        y2: chi_plane(a.y2),
        y3: chi_plane(a.y3),
        y4: chi_plane(a.y4),
    }
}

/// One round, with the round constant c.
fn round_of(a: Lanes, c: u64) -> Lanes
    ensures { flat result ≡ round c (flat a) }
{
    let mut b = chi_of(rho_pi_of(theta_of(a)));
    b.y0.x0 ^= c;
    b
}

/// The 24 rounds.
pub(crate) fn permuted(a: Lanes) -> Lanes
    ensures { flat result ≡ keccak (flat a) }
{
    let mut b = a;
    for c in RC {
        b = round_of(b, c);
    }
    b
}
